// The refusals of a quotient's text, each with its number and its line; 0 and 0 for a text that is
// taken.
use crate::entries::{no_light, no_move};
use frames::Draft;
use std::alloc::{AllocError, Global};
use std::process::Abort;
use std::test::Fail;

fn answer(text: &[u8]) -> (u8, usize) {
    let mut moves = [no_move(); 2049];
    let mut lights = [no_light(); 2049];
    let mut draft = Draft::new();
    match quotients::quotient(text, &mut moves, &mut lights, &mut draft) {
        Ok(()) => (0, 0),
        Err(e) => (u8::from(e.refusal), e.line),
    }
}

#[derive(Clone, Copy)]
struct Case {
    text: &'static str,
    number: u8,
    line: usize,
}

fn given(text: &'static str, number: u8, line: usize) -> Case {
    Case { text, number, line }
}

// The texts are put behind `front`.
fn check_cases(rt: &impl Abort, heap: Global, front: &str, cases: &[Case]) -> Result<(), Fail> {
    for case in cases {
        let mut text = String::from_str(heap, front)?;
        text.push_str(case.text)?;
        assert_eq!(rt;
            answer(text.as_bytes()),
            (case.number, case.line),
            "{}",
            case.text
        );
    }
    Ok(())
}

#[test]
fn texts_of_the_part(rt: HostRuntime) -> Result<(), Fail> {
    let cases = [
        given("", 2, 1),
        given("states\n", 2, 1),
        given("states actions lamps start\n257 1 1 0\n", 3, 2),
        given("states actions lamps start\n256 9 1 0\n", 4, 2),
        given("states actions lamps start\n256 1 1 256\n", 5, 2),
        given("states actions lamps start\n256 1 1 0\n", 2, 3),
    ];
    check_cases(&rt, rt.alloc(), "", &cases)
}

const SIZES: &str = "states actions lamps start\n3 1 1 0\nfrom action to kind\n";

#[test]
fn texts_of_moves_and_lights(rt: HostRuntime) -> Result<(), Fail> {
    let cases = [
        given("0 a 3 certain\n", 6, 4),
        given("0 b 2 certain\n", 7, 4),
        given("0 a 2 certain\n0 a 2 optional\n", 8, 5),
        given("0 a  2 certain\n", 2, 4),
        given("classes\n", 2, 4),
        given("state lamp light\n0 p dim\n", 2, 5),
        given("state lamp light\n0 q on\n", 7, 5),
        given("state lamp light\n0 p on\n0 p on\n", 8, 6),
        given("state lamp light\n", 2, 5),
    ];
    check_cases(&rt, rt.alloc(), SIZES, &cases)
}

const PART: &str =
    "states actions lamps start\n3 1 1 0\nfrom action to kind\n0 a 2 certain\nstate lamp light\n2 p on\n";

#[test]
fn texts_of_the_count(rt: HostRuntime) -> Result<(), Fail> {
    let cases = [
        given("classes\n", 2, 8),
        given("classes\n0\n", 3, 8),
        given("classes\n65\n", 3, 8),
        given("classes\n03\n", 2, 8),
        given("classes\n3 \n", 2, 8),
        given("classes\n64\n", 2, 9),
        given("classes\n64\nstate class", 2, 9),
        given("classes\n64\nclass state\n", 2, 9),
        given("classes\n64\nstate class\n", 0, 0),
    ];
    check_cases(&rt, rt.alloc(), PART, &cases)
}

const MAP: &str =
    "states actions lamps start\n3 1 1 0\nfrom action to kind\nstate lamp light\nclasses\n2\nstate class\n";

#[test]
fn texts_of_the_map(rt: HostRuntime) -> Result<(), Fail> {
    let cases = [
        given("2  1\n", 2, 8),
        given("2 1 \n", 2, 8),
        given("2 1", 2, 8),
        given("3 0\n", 6, 8),
        given("0 2\n", 6, 8),
        given("2 1\n2 0\n", 8, 9),
        given("2 1\n2 2\n", 6, 9),
        given("2 1\n0 0\n1 1\n", 0, 0),
    ];
    check_cases(&rt, rt.alloc(), MAP, &cases)
}

#[test]
fn a_text_has_up_to_32768_bytes(rt: HostRuntime) -> Result<(), Fail> {
    let long = vec![in rt.alloc(); b'x'; 32769]?;
    assert_eq!(rt; answer(&long), (1, 0));
    assert_eq!(rt; answer(&long[1..]), (2, 1));
    Ok(())
}

// A text whose part has 26 states and the first `count` moves by from, action and to.
fn with_moves(heap: Global, count: usize) -> Result<String, AllocError> {
    let mut text = String::from_str(
        heap,
        "states actions lamps start\n26 8 0 0\nfrom action to kind\n",
    )?;
    for n in 0..count {
        let from = n / 208;
        let action = char::from(b'a' + (n / 26 % 8) as u8);
        let to = n % 26;
        text.push_str(format!(in heap; "{from} {action} {to} certain\n")?.as_str())?;
    }
    text.push_str("state lamp light\nclasses\n1\nstate class\n")?;
    Ok(text)
}

#[test]
fn a_part_has_up_to_2048_moves(rt: HostRuntime) -> Result<(), Fail> {
    let most = with_moves(rt.alloc(), 2048)?;
    assert_eq!(rt; answer(most.as_bytes()), (0, 0));
    let more = with_moves(rt.alloc(), 2049)?;
    assert_eq!(rt; answer(more.as_bytes()), (19, 2052));
    Ok(())
}
