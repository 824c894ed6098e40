// Cards as a teacher may write them, good and bad.
use crate::card::{Card, parse};
use crate::fault::CardFault;
use crate::text::{read_ids, read_number, read_weight};
use docset::refusal::Refusal;
use std::alloc::Global;
use std::test::Fail;

// The first fault of a card, if it has one.
fn fault_of(heap: Global, text: &str) -> Option<CardFault> {
    match parse(heap, text) {
        Ok(_) => None,
        Err(fault) => Some(fault),
    }
}

// A card of so many topics of one exercise.
fn topics(heap: Global, count: usize) -> Result<String, Fail> {
    let mut text = String::new(heap);
    for _ in 0..count {
        text.push_str("topic t: 4\n")?;
    }
    Ok(text)
}

#[test]
fn numbers(rt: HostRuntime) {
    assert_eq!(rt; read_number(b"0"), Some(0));
    assert_eq!(rt; read_number(b"007"), Some(7));
    assert_eq!(rt; read_number(b"4294967295"), Some(4294967295));
    assert_eq!(rt; read_number(b"4294967296"), None);
    assert_eq!(rt; read_number(b"99999999999999999999999"), None);
    assert_eq!(rt; read_number(b""), None);
    assert_eq!(rt; read_number(b"+1"), None);
    assert_eq!(rt; read_number(b"1x"), None);
}

#[test]
fn weights(rt: HostRuntime) {
    assert_eq!(rt; read_weight(b"0"), Some(0));
    assert_eq!(rt; read_weight(b"0.01"), Some(1));
    assert_eq!(rt; read_weight(b"2.5"), Some(250));
    assert_eq!(rt; read_weight(b"1000"), Some(100000));
    assert_eq!(rt; read_weight(b"1000.00"), Some(100000));
    assert_eq!(rt; read_weight(b"1000.01"), None);
    assert_eq!(rt; read_weight(b"1.005"), None);
    assert_eq!(rt; read_weight(b"1."), None);
    assert_eq!(rt; read_weight(b".5"), None);
    assert_eq!(rt; read_weight(b"1.2.3"), None);
    assert_eq!(rt; read_weight(b"-1"), None);
}

#[test]
fn ids(rt: HostRuntime) -> Result<(), Fail> {
    let ids = read_ids(rt.alloc(), b"  3  5 9 ")?.ok_or("no ids")?;
    assert!(rt; ids.len() == 3);
    assert_eq!(rt; ids[0], 3);
    assert_eq!(rt; ids[1], 5);
    assert_eq!(rt; ids[2], 9);
    assert!(rt; read_ids(rt.alloc(), b"")?.ok_or("no ids")?.is_empty());
    assert!(rt; read_ids(rt.alloc(), b"3,5")?.is_none());
    Ok(())
}

fn read(heap: Global, text: &str) -> Result<Card, Fail> {
    Ok(parse(heap, text)?)
}

#[test]
fn whole_card(rt: HostRuntime) -> Result<(), Fail> {
    let card = read(
        rt.alloc(),
        "# a note: with a colon\n\ntopic algebra: 3 5 9\n  topic word-problems 2.25 : 1\nbonus exam 0: 5 9\nseen: 9 3\npick 64\nat-least 32",
    )?;
    assert!(rt; card.topics.len() == 2);
    assert_eq!(rt; card.topics[0].name.as_str(), "algebra");
    assert_eq!(rt; card.topics[0].weight, 100);
    assert_eq!(rt; card.topics[0].line, 3);
    assert_eq!(rt; card.topics[1].weight, 225);
    assert_eq!(rt; card.topics[1].line, 4);
    assert_eq!(rt; card.seen().len(), 2);
    assert_eq!(rt; card.seen.as_ref().map(|seen| seen.line), Some(6));
    assert_eq!(rt; card.pick(), 64);
    assert_eq!(rt; card.at_least(), 32);
    assert!(rt; card.bonus.is_some());
    Ok(())
}

#[test]
fn what_is_not_said(rt: HostRuntime) -> Result<(), Fail> {
    let card = read(rt.alloc(), "topic a:\n")?;
    assert!(rt; card.topics.len() == 1);
    assert!(rt; card.topics[0].ids.is_empty());
    assert_eq!(rt; card.pick(), 10);
    assert_eq!(rt; card.at_least(), 1);
    assert!(rt; card.bonus.is_none());
    assert_eq!(rt; card.seen.as_ref().map(|seen| seen.line), None);
    Ok(())
}

#[test]
fn faults_of_a_line(rt: HostRuntime) {
    let heap = rt.alloc();
    assert_eq!(rt;
        fault_of(heap, "topics a: 1"),
        Some(CardFault::UnknownWord(1))
    );
    assert_eq!(rt; fault_of(heap, "\n: 1"), Some(CardFault::UnknownWord(2)));
    assert_eq!(rt;
        fault_of(heap, "topic a 1 2: 3"),
        Some(CardFault::BadForm(1))
    );
    assert_eq!(rt; fault_of(heap, "topic a 3"), Some(CardFault::BadForm(1)));
    assert_eq!(rt; fault_of(heap, "topic: 3"), Some(CardFault::BadForm(1)));
    assert_eq!(rt; fault_of(heap, "seen 3"), Some(CardFault::BadForm(1)));
    assert_eq!(rt; fault_of(heap, "seen by: 3"), Some(CardFault::BadForm(1)));
    assert_eq!(rt; fault_of(heap, "pick: 3"), Some(CardFault::BadForm(1)));
    assert_eq!(rt;
        fault_of(heap, "# x\ntopic a.b: 1"),
        Some(CardFault::BadName(2))
    );
    assert_eq!(rt;
        fault_of(heap, "topic a 1.005: 1"),
        Some(CardFault::BadWeight(1))
    );
    assert_eq!(rt;
        fault_of(heap, "topic a: 1 two"),
        Some(CardFault::BadNumber(1))
    );
    assert_eq!(rt; fault_of(heap, "pick many"), Some(CardFault::BadNumber(1)));
}

#[test]
fn limits(rt: HostRuntime) {
    let heap = rt.alloc();
    assert_eq!(rt;
        fault_of(heap, "topic a: 1\npick 0"),
        Some(CardFault::OutOfRange(2))
    );
    assert_eq!(rt; fault_of(heap, "topic a: 1\npick 1"), None);
    assert_eq!(rt; fault_of(heap, "topic a: 1\npick 64"), None);
    assert_eq!(rt;
        fault_of(heap, "topic a: 1\npick 65"),
        Some(CardFault::OutOfRange(2))
    );
    assert_eq!(rt;
        fault_of(heap, "topic a: 1\nat-least 0"),
        Some(CardFault::OutOfRange(2))
    );
    assert_eq!(rt; fault_of(heap, "topic a: 1\nat-least 32"), None);
    assert_eq!(rt;
        fault_of(heap, "topic a: 1\nat-least 33"),
        Some(CardFault::OutOfRange(2))
    );
}

#[test]
fn how_many_topics(rt: HostRuntime) -> Result<(), Fail> {
    let heap = rt.alloc();
    assert_eq!(rt; fault_of(heap, ""), Some(CardFault::NoTopics(1)));
    assert_eq!(rt; fault_of(heap, "seen: 1\n"), Some(CardFault::NoTopics(2)));
    assert_eq!(rt; fault_of(heap, topics(heap, 1)?.as_str()), None);
    assert_eq!(rt; fault_of(heap, topics(heap, 32)?.as_str()), None);
    assert_eq!(rt;
        fault_of(heap, topics(heap, 33)?.as_str()),
        Some(CardFault::TooManyTopics(33))
    );
    Ok(())
}

#[test]
fn said_twice(rt: HostRuntime) {
    let heap = rt.alloc();
    assert_eq!(rt;
        fault_of(heap, "bonus a: 1\nbonus b: 2"),
        Some(CardFault::Twice(2))
    );
    assert_eq!(rt; fault_of(heap, "seen:\nseen: 2"), Some(CardFault::Twice(2)));
    assert_eq!(rt;
        fault_of(heap, "pick 3\n\npick 3"),
        Some(CardFault::Twice(3))
    );
    assert_eq!(rt;
        fault_of(heap, "at-least 3\nat-least 3"),
        Some(CardFault::Twice(2))
    );
}

#[test]
fn words_of_a_fault(rt: HostRuntime) -> Result<(), Fail> {
    let fault = CardFault::Ids(3, Refusal::NotRising(1));
    let text = fault.to_string(rt.alloc())?;
    assert_eq!(rt;
        text.as_str(),
        "line 3: the id at place 1 is not above the one before it (rule 1)"
    );
    Ok(())
}
