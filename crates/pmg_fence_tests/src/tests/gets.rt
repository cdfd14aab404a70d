//! What a get is answered: a line for each case of a key and its process, and in it a letter for each mode.
use pmg_get::{Answer, Mode, View, resolve};
use pmg_value::Value;

// The answer as a letter: the number that is found, `-` for NotFound, `o` for OutsideScope, `p` for a get that waits.
fn letter(answer: Answer<'_>) -> u8 {
    match answer {
        Answer::Found(Value::U8(1)) => b'1',
        Answer::Found(_) => b'2',
        Answer::NotFound => b'-',
        Answer::OutsideScope => b'o',
        Answer::Park => b'p',
    }
}

// What is answered in the modes Wait, Now and Refresh.
fn answers(view: View<'_>) -> [u8; 3] {
    [
        letter(resolve(view, Mode::Wait)),
        letter(resolve(view, Mode::Now)),
        letter(resolve(view, Mode::Refresh)),
    ]
}

#[test]
fn a_reserved_key_and_an_own_one_are_there_or_not(rt: HostRuntime) {
    let one = Value::U8(1);
    assert!(rt; answers(View::Reserved { value: Some(&one) }) == *b"111");
    assert!(rt; answers(View::Reserved { value: None }) == *b"---");
    assert!(rt; answers(View::Own { value: Some(&one) }) == *b"111");
    assert!(rt; answers(View::Own { value: None }) == *b"---");
}

// What is answered of a process of the same node that has ended, or not.
fn near<'a>(near: Option<&'a Value>, far: Option<&'a Value>, term: bool) -> [u8; 3] {
    answers(View::Near { near, far, term })
}

#[test]
fn a_process_of_the_same_node_keeps_what_only_others_may_see(rt: HostRuntime) {
    let (one, two) = (Value::U8(1), Value::U8(2));
    for term in [false, true] {
        assert!(rt; near(Some(&one), Some(&two), term) == *b"111");
        assert!(rt; near(Some(&one), None, term) == *b"111");
        assert!(rt; near(None, Some(&two), term) == *b"ooo");
    }
    assert!(rt; near(None, None, true) == *b"---");
    assert!(rt; near(None, None, false) == *b"p--");
}

#[test]
fn a_process_of_another_node_is_asked_anew(rt: HostRuntime) {
    let two = Value::U8(2);
    for term in [false, true] {
        assert!(rt;
            answers(View::Far {
                far: Some(&two),
                term
            }) == *b"22p"
        );
    }
    assert!(rt;
        answers(View::Far {
            far: None,
            term: true
        }) == *b"--p"
    );
    assert!(rt;
        answers(View::Far {
            far: None,
            term: false
        }) == *b"p-p"
    );
}
