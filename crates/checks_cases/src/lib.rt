// Examples of cases: marks, what confirming and striking does to them, and refused formulas.
#![tactic(auto)]

#[cfg(test)]
mod tests {
    use calculus::Mark;
    use cases::Case;
    use frames::{Draft, Frame};
    use std::process::Abort;
    use std::test::Fail;
    use systems::{LampAt, Move, Setting};

    // The optional move of the sample, and its unknown lamp.
    const MOVE: Move = Move {
        from: 0,
        action: 0,
        to: 1,
    };

    const LAMP: LampAt = LampAt { state: 1, lamp: 0 };

    // Two states, one action and one lamp: 0 a 1 optional, 1 a 1 certain, and p off at 0.
    fn sample(rt: &impl Abort) -> Case<Frame> {
        let mut draft = Draft::new();
        let text =
            b"states actions lamps start\n2 1 1 0\nfrom action to kind\n0 a 1 optional\n1 a 1 certain\nstate lamp light\n0 p off\n";
        assert!(rt; listings::read(&mut draft, text).is_ok());
        Case::open(draft, Draft::new().into_frame())
    }

    fn marked(
        rt: &impl Abort,
        case: &Case<Frame>,
        state: usize,
        formula: &[u8],
        mark: Mark,
    ) -> Result<(), Fail> {
        match case.mark(state, formula) {
            Ok(m) => {
                assert_eq!(rt; m, mark);
                Ok(())
            },
            Err(_) => Err(Fail::new("refused")),
        }
    }

    fn refused(
        rt: &impl Abort,
        case: &Case<Frame>,
        state: usize,
        formula: &[u8],
        number: u8,
    ) -> Result<(), Fail> {
        match case.mark(state, formula) {
            Ok(_) => Err(Fail::new("marked")),
            Err(e) => {
                assert_eq!(rt; u8::from(e), number);
                Ok(())
            },
        }
    }

    #[test]
    fn marks_of_the_sample(rt: HostRuntime) -> Result<(), Fail> {
        let case = sample(&rt);
        marked(&rt, &case, 1, b"(p|!p)", Mark::Unknown)?;
        marked(&rt, &case, 0, b"<a>T", Mark::Unknown)?;
        marked(&rt, &case, 1, b"<a>T", Mark::True)?;
        marked(&rt, &case, 0, b"nX.<a>X", Mark::Unknown)?;
        marked(&rt, &case, 1, b"nX.<a>X", Mark::True)?;
        marked(&rt, &case, 0, b"mX.[a]X", Mark::Unknown)?;
        marked(&rt, &case, 1, b"mX.[a]X", Mark::False)?;
        marked(&rt, &case, 0, b"mX.(p|<a>X)", Mark::Unknown)?;
        marked(&rt, &case, 0, b"mX.!!X", Mark::False)?;
        marked(&rt, &case, 0, b"mX.nY.mZ.(X|(Y|Z))", Mark::True)
    }

    #[test]
    fn refused_formulas(rt: HostRuntime) -> Result<(), Fail> {
        let case = sample(&rt);
        refused(&rt, &case, 2, b"", 6)?;
        refused(&rt, &case, 0, b"", 11)?;
        refused(&rt, &case, 0, b"(T)", 12)?;
        refused(&rt, &case, 0, b"<i>T", 12)?;
        refused(&rt, &case, 0, b"<b>T", 13)?;
        refused(&rt, &case, 0, b"q", 13)?;
        refused(&rt, &case, 0, b"X", 14)?;
        refused(&rt, &case, 0, b"mX.!X", 14)?;
        refused(&rt, &case, 0, b"mX.mY.mZ.mX.X", 15)?;
        marked(&rt, &case, 0, b"(mX.mY.mZ.F&mX.F)", Mark::False)
    }

    // 127 negations before T, and 128.
    #[test]
    fn long_formulas(rt: HostRuntime) -> Result<(), Fail> {
        let case = sample(&rt);
        let mut text = [b'!'; 129];
        text[127] = b'T';
        marked(&rt, &case, 0, &text[0..128], Mark::False)?;
        text[127] = b'!';
        text[128] = b'T';
        refused(&rt, &case, 0, &text[0..129], 11)
    }

    #[test]
    fn confirmed(rt: HostRuntime) -> Result<(), Fail> {
        let mut case = sample(&rt);
        assert!(rt; case.confirm(MOVE).is_ok());
        marked(&rt, &case, 0, b"<a>T", Mark::True)?;
        match case.strike(MOVE) {
            Ok(()) => Err(Fail::new("struck")),
            Err(e) => {
                assert_eq!(rt; u8::from(e), 9);
                Ok(())
            },
        }
    }

    #[test]
    fn struck(rt: HostRuntime) -> Result<(), Fail> {
        let mut case = sample(&rt);
        assert!(rt; case.strike(MOVE).is_ok());
        marked(&rt, &case, 0, b"<a>T", Mark::False)?;
        marked(&rt, &case, 1, b"<a>T", Mark::True)?;
        assert!(rt; case.decide(LAMP, Setting::On).is_ok());
        marked(&rt, &case, 1, b"p", Mark::True)?;
        match case.decide(LAMP, Setting::Off) {
            Ok(()) => Err(Fail::new("decided twice")),
            Err(e) => {
                assert_eq!(rt; u8::from(e), 10);
                Ok(())
            },
        }
    }
}
