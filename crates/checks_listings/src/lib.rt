// Examples of listings: what is read, what is refused and at which line, and what is written.
#![tactic(auto)]

#[cfg(test)]
mod tests {
    use frames::Draft;
    use std::process::Abort;
    use std::test::Fail;
    use systems::{Builder, LampAt, Modality, Move, Setting, Sizes};

    const MOVE: Move = Move {
        from: 0,
        action: 0,
        to: 2,
    };

    const LAMP: LampAt = LampAt { state: 0, lamp: 0 };

    // Two states, one action and one lamp: one move optional, one certain, one light off.
    fn sample() -> &'static [u8] {
        b"states actions lamps start\n2 1 1 0\nfrom action to kind\n0 a 1 optional\n1 a 1 certain\nstate lamp light\n0 p off\n"
    }

    fn refused(rt: &impl Abort, text: &[u8], number: u8, line: usize) -> Result<(), Fail> {
        let mut draft = Draft::new();
        match listings::read(&mut draft, text) {
            Ok(()) => Err(Fail::new("read")),
            Err(e) => {
                assert_eq!(rt; u8::from(e.refusal), number);
                assert_eq!(rt; e.line, line);
                Ok(())
            }
        }
    }

    fn accepted(rt: &impl Abort, text: &[u8]) {
        let mut draft = Draft::new();
        assert!(rt; listings::read(&mut draft, text).is_ok());
    }

    // A part with these sizes and no moves or lights.
    fn sized(heap: std::alloc::Global, sizes: &[u8]) -> Result<Vec<u8>, Fail> {
        let mut text = Vec::new(heap);
        text.extend_from_slice(b"states actions lamps start\n")?;
        text.extend_from_slice(sizes)?;
        text.extend_from_slice(b"\nfrom action to kind\nstate lamp light\n")?;
        Ok(text)
    }

    fn refused_sizes(
        rt: &impl Abort,
        heap: std::alloc::Global,
        sizes: &[u8],
        number: u8,
    ) -> Result<(), Fail> {
        let text = sized(heap, sizes)?;
        refused(rt, text.as_slice(), number, 2)
    }

    // The sample with this move or light at its end, on line 8.
    fn refused_more(
        rt: &impl Abort,
        heap: std::alloc::Global,
        line: &[u8],
        number: u8,
    ) -> Result<(), Fail> {
        let mut text = Vec::new(heap);
        text.extend_from_slice(sample())?;
        text.extend_from_slice(line)?;
        refused(rt, text.as_slice(), number, 8)
    }

    // The sample up to its moves, with this line on line 6.
    fn refused_move(
        rt: &impl Abort,
        heap: std::alloc::Global,
        line: &[u8],
        number: u8,
    ) -> Result<(), Fail> {
        let mut text = Vec::new(heap);
        text.extend_from_slice(
            b"states actions lamps start\n2 1 1 0\nfrom action to kind\n0 a 1 optional\n1 a 1 certain\n",
        )?;
        text.extend_from_slice(line)?;
        text.extend_from_slice(b"state lamp light\n")?;
        refused(rt, text.as_slice(), number, 6)
    }

    #[test]
    fn the_sample_is_written_as_it_was_read(rt: HostRuntime) -> Result<(), Fail> {
        let mut draft = Draft::new();
        assert!(rt; listings::read(&mut draft, sample()).is_ok());
        assert_eq!(rt; listings::room(&draft), 131);
        let mut out = vec![in rt.alloc(); 7u8; 140]?;
        match listings::write(&draft, &mut out) {
            Ok(length) => {
                assert_eq!(rt; length, 109);
                assert!(rt; out.len() == 140 && length == 109);
                assert!(rt; &out[0..109] == sample());
                assert_eq!(rt; out[109], 7);
                assert_eq!(rt; out[139], 7);
                Ok(())
            }
            Err(_) => Err(Fail::new("refused")),
        }
    }

    #[test]
    fn the_listing_of_a_draft(rt: HostRuntime) -> Result<(), Fail> {
        let mut draft = Draft::new();
        assert!(rt; listings::read(&mut draft, sample()).is_ok());
        let text = output::listing(rt.alloc(), &draft)?;
        assert!(rt; text.as_slice() == sample());
        Ok(())
    }

    // What a program prints of a text that it refuses.
    #[test]
    fn the_words_of_a_rejection(rt: HostRuntime) -> Result<(), Fail> {
        let mut draft = Draft::new();
        match listings::read(&mut draft, b"states actions lamps start\n65 1 1 0\n") {
            Ok(()) => Err(Fail::new("read")),
            Err(rejection) => {
                let words = format!(in rt.alloc(); "{rejection}")?;
                assert!(rt; words.as_bytes() == b"refusal line\n3 2".as_slice());
                Ok(())
            }
        }
    }

    #[test]
    fn a_short_buffer_is_left_alone(rt: HostRuntime) -> Result<(), Fail> {
        let mut draft = Draft::new();
        assert!(rt; listings::read(&mut draft, sample()).is_ok());
        let mut out = vec![in rt.alloc(); 7u8; 130]?;
        match listings::write(&draft, &mut out) {
            Ok(_) => return Err(Fail::new("written")),
            Err(refusal) => assert_eq!(rt; u8::from(refusal), 19),
        }
        assert!(rt; out.len() == 130);
        assert_eq!(rt; out[0], 7);
        let mut more = vec![in rt.alloc(); 7u8; 131]?;
        assert!(rt; listings::write(&draft, &mut more).is_ok());
        Ok(())
    }

    #[test]
    fn the_length_of_a_paper(rt: HostRuntime) -> Result<(), Fail> {
        let long = vec![in rt.alloc(); 10u8; 32769]?;
        refused(&rt, long.as_slice(), 1, 0)?;
        let full = vec![in rt.alloc(); 10u8; 32768]?;
        refused(&rt, full.as_slice(), 2, 1)
    }

    #[test]
    fn the_form_of_lines(rt: HostRuntime) -> Result<(), Fail> {
        let heap = rt.alloc();
        refused(&rt, b"", 2, 1)?;
        refused(&rt, b"states actions lamps start\n", 2, 2)?;
        refused(&rt, b"states actions lamps start", 2, 1)?;
        refused(&rt, b"states actions lamps begin\n", 2, 1)?;
        refused_sizes(&rt, heap, b"007 1 1 0", 2)?;
        refused_sizes(&rt, heap, b"2  1 1 0", 2)?;
        refused_sizes(&rt, heap, b"2 1 1 0 ", 2)?;
        refused_sizes(&rt, heap, b"1000 1 1 0", 2)?;
        refused_sizes(&rt, heap, b"2 1 1 0\r", 2)?;
        refused_move(&rt, heap, b"0 i 1 optional\n", 2)?;
        refused_move(&rt, heap, b"0 a 0 absent\n", 2)?;
        refused_more(&rt, heap, b"1 p unknown\n", 2)?;
        refused_more(&rt, heap, b"1 p on", 2)
    }

    #[test]
    fn the_sizes(rt: HostRuntime) -> Result<(), Fail> {
        let heap = rt.alloc();
        refused_sizes(&rt, heap, b"0 1 1 0", 3)?;
        refused_sizes(&rt, heap, b"65 1 1 0", 3)?;
        refused_sizes(&rt, heap, b"999 1 1 0", 3)?;
        refused_sizes(&rt, heap, b"2 9 1 0", 4)?;
        refused_sizes(&rt, heap, b"2 1 9 0", 4)?;
        refused_sizes(&rt, heap, b"2 1 1 2", 5)?;
        accepted(&rt, sized(heap, b"64 8 8 63")?.as_slice());
        Ok(())
    }

    #[test]
    fn moves_and_lights(rt: HostRuntime) -> Result<(), Fail> {
        let heap = rt.alloc();
        refused_move(&rt, heap, b"2 a 1 optional\n", 6)?;
        refused_move(&rt, heap, b"0 a 2 optional\n", 6)?;
        refused_move(&rt, heap, b"0 b 1 optional\n", 7)?;
        refused_move(&rt, heap, b"2 b 1 optional\n", 6)?;
        refused_move(&rt, heap, b"0 a 1 certain\n", 8)?;
        refused_more(&rt, heap, b"2 p on\n", 6)?;
        refused_more(&rt, heap, b"1 q on\n", 7)?;
        refused_more(&rt, heap, b"0 p on\n", 8)
    }

    // A refused text leaves the draft as it was.
    #[test]
    fn nothing_is_half_read(rt: HostRuntime) {
        let mut draft = Draft::new();
        let sizes = Sizes {
            states: 3,
            actions: 1,
            lamps: 0,
            start: 2,
        };
        assert!(rt; draft.size(sizes).is_ok());
        assert!(rt; draft.draw(MOVE, Modality::Must).is_ok());
        assert!(rt; listings::read(&mut draft, b"states actions lamps start\n2 1 1 0\n").is_err());
        assert_eq!(rt; listings::room(&draft), 97);
        assert!(rt; draft.draw(MOVE, Modality::May).is_err());
        assert!(rt; draft.light(LAMP, Setting::On).is_err());
    }

    #[test]
    fn lines_by_number(rt: HostRuntime) {
        let text = b"one\n\nthree";
        assert!(rt; text::line(text, 0).is_none());
        assert!(rt; text::line(text, 1) == Some(b"one".as_slice()));
        assert!(rt; text::line(text, 2) == Some(b"".as_slice()));
        assert!(rt; text::line(text, 3) == Some(b"three".as_slice()));
        assert!(rt; text::line(text, 4).is_none());
        assert!(rt; text::line(b"one\n", 2).is_none());
    }
}
