//! What is answered where one line of an account is changed.
use crate::tests::accounts::{Account, Accounts, Change, MEMORY};
use crate::tests::{exchange, fences, gets, refreshing};
use std::alloc::Global;
use std::process::Abort;
use std::str;

/// A change, and what is answered then.
#[derive(Clone, Copy)]
struct Row<'a> {
    change: Change<'a>,
    wanted: &'a str,
}

// Which account a letter stands for.
fn account_of(letter: &str) -> Account {
    match letter {
        "J" => Account::Journal,
        "T" => Account::Transcript,
        "B" => Account::Both,
        _ => Account::Neither,
    }
}

// The row of a text at that node, under that line.
fn row_of<'a>(node: u32, line: usize, text: &'a str) -> Option<Row<'a>> {
    let (letter, rest) = text.split_once(' ')?;
    let (wanted, text) = rest.split_once(' ')?;
    let change = Change {
        node,
        account: account_of(letter),
        line,
        text,
    };
    Some(Row { change, wanted })
}

// Whether it is a row, and that is answered.
fn is_answered(rt: &impl Abort, alloc: Global, texts: [&str; 2], row: Option<Row<'_>>) -> bool {
    let Some(Row { change, wanted }) = row else {
        return false;
    };
    let accounts = Accounts::new(alloc, texts, &change).expect(rt, MEMORY);
    match accounts.answer(rt) {
        Ok(_) => wanted == "fine",
        Err(refusal) => wanted == refusal.name(),
    }
}

// Puts the rows of that node that are answered otherwise.
fn put_wrong(
    rt: &impl Abort,
    wrong: &mut Vec<u8>,
    alloc: Global,
    texts: [&str; 2],
    node: u32,
    text: &str,
) {
    let mut base = 0;
    for (number, line) in text.lines().enumerate() {
        let Some(told) = line.strip_prefix("  ") else {
            base = number;
            continue;
        };
        if told.starts_with('#') || is_answered(rt, alloc, texts, row_of(node, base, told)) {
            continue;
        }
        wrong.extend_from_slice(line.as_bytes()).expect(rt, MEMORY);
        wrong.push(b'\n').expect(rt, MEMORY);
    }
}

// The rows that are answered otherwise.
fn wrong_rows(rt: &impl Abort, alloc: Global, texts: [&str; 2]) -> Vec<u8> {
    let mut wrong = Vec::new(alloc);
    let [zero, one] = texts;
    put_wrong(rt, &mut wrong, alloc, texts, 0, zero);
    put_wrong(rt, &mut wrong, alloc, texts, 1, one);
    wrong
}

// Requires that each row is answered as it says.
fn assert_answered(rt: &impl Abort, alloc: Global, texts: [&str; 2]) {
    let wrong = wrong_rows(rt, alloc, texts);
    assert_eq!(rt; str::from_utf8(&wrong).unwrap_or("no text"), "");
}

#[test]
fn each_line_of_an_exchange_is_changed(rt: HostRuntime) {
    assert_answered(&rt, rt.alloc(), [exchange::AT_ZERO, exchange::AT_ONE]);
}

#[test]
fn fences_and_gets_are_changed(rt: HostRuntime) {
    let all = [
        [fences::AT_ZERO, fences::AT_ONE],
        [gets::AT_ZERO, gets::AT_ONE],
        [refreshing::AT_ZERO, refreshing::AT_ONE],
    ];
    for texts in all {
        assert_answered(&rt, rt.alloc(), texts);
    }
}
