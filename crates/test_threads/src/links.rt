//! One link: what is sent comes in its order, and the seats are compared at the end.

ghost use Rattle.std.specs.Prelude.{◌≡◌};

use gf_link::{Link, Message, SendSeat, TakeSeat, links, settle};
use gf_ops::{Form, Op, OpId};
use std::alloc::{AllocError, Global};
use std::sync::Wait;
use std::test::Fail;
use test_kit::create;
use test_kit::notation::id;

/// Each row: what is sent, how many messages are taken then, and what came. Behind this stand the
/// numbers that were sent and taken.
const LINKS: [(&str, u32, &str); 6] = [
    ("", 1, "-, 0 0"),
    ("1.2", 2, "1.2 -, 1 1"),
    ("1.1 End", 3, "1.1 End -, 2 2"),
    ("1.2 1.3 2.1", 2, "1.2 1.3, 3 2"),
    ("1.3 1.2 Stop", 4, "1.3 1.2 Stop -, 3 3"),
    ("Stop", 0, ", 1 0"),
];

/// An operation of this id, which makes a circle.
fn circle(id: OpId) -> Op {
    create(id.site, id.seq, [0; 8], Form::Circle(3))
}

/// The message of a word such as `1.2` or `End`.
fn message(word: &str) -> Option<Message> {
    match word {
        "End" => Some(Message::End),
        "Stop" => Some(Message::Stop),
        _ => Some(Message::Op(circle(id(word)?))),
    }
}

/// Sends what these words say.
fn send_all<R: Wait>(rt: &R, link: &Link, seat: &mut SendSeat, words: &str) -> Result<(), Fail>
    requires { seat.old.link ≡ link.now }
    ensures { seat.new.link ≡ link.now }
{
    for word in words.split_whitespace() {
        let Some(message) = message(word) else {
            return Err(Fail::new("a word is no message"));
        };
        if seat.ended() || seat.sent() >= 1_024 {
            return Err(Fail::new("nothing more may be sent"));
        }
        link.send(rt, seat, message);
    }
    Ok(())
}

/// The next message of a link, as a word.
fn taken<R: Wait>(
    rt: &R,
    alloc: Global,
    link: &Link,
    seat: &mut TakeSeat,
) -> Result<String, AllocError>
    requires { seat.old.link ≡ link.now }
    ensures { seat.new.link ≡ link.now }
{
    match link.take(rt, seat) {
        None => String::from_str(alloc, "-"),
        Some(Message::End) => String::from_str(alloc, "End"),
        Some(Message::Stop) => String::from_str(alloc, "Stop"),
        Some(Message::Op(op)) => format!(in alloc; "{}", op.id),
    }
}

/// The next messages of a link, as words.
fn all_taken<R: Wait>(
    rt: &R,
    alloc: Global,
    link: &Link,
    seat: &mut TakeSeat,
    takes: u32,
) -> Result<String, AllocError>
    requires { seat.old.link ≡ link.now }
    ensures { seat.new.link ≡ link.now }
{
    let mut text = String::new(alloc);
    for n in 0..takes {
        if n > 0 {
            text.push(' ')?;
        }
        text.push_str(taken(rt, alloc, link, seat)?.as_str())?;
    }
    Ok(text)
}

/// What comes where these words are sent and this many messages are taken.
fn passed<R: Wait>(rt: &R, alloc: Global, words: &str, takes: u32) -> Result<String, Fail> {
    let (link, mut send, mut take) = Link::new(rt, alloc)?;
    send_all(rt, &link, &mut send, words)?;
    let text = all_taken(rt, alloc, &link, &mut take, takes)?;
    let settled = settle(rt, link, send, take);
    Ok(format!(in alloc; "{text}, {} {}", settled.sent, settled.taken)?)
}

#[test]
fn what_is_sent_comes_in_its_order(rt: HostRuntime) -> Result<(), Fail> {
    for (words, takes, want) in LINKS {
        let text = passed(&rt, rt.alloc(), words, takes)?;
        assert_eq!(rt; text.as_str(), want, "{words}");
    }
    Ok(())
}

/// Sends 1.1 and so on to 1.1023, and End.
fn fill<R: Wait>(rt: &R, link: &Link, seat: &mut SendSeat) -> Result<(), Fail>
    requires { seat.old.link ≡ link.now }
    ensures { seat.new.link ≡ link.now }
{
    for n in 1..=1_024u32 {
        if seat.ended() || seat.sent() >= 1_024 {
            return Err(Fail::new("nothing more may be sent"));
        }
        let message = if n <= 1_023 {
            Message::Op(circle(OpId { site: 1, seq: n }))
        } else {
            Message::End
        };
        link.send(rt, seat, message);
    }
    Ok(())
}

/// Takes until there is no message, and tells how many operations came in their order before End.
fn drain<R: Wait>(rt: &R, link: &Link, seat: &mut TakeSeat) -> Option<u32>
    requires { seat.old.link ≡ link.now }
    ensures { seat.new.link ≡ link.now }
{
    for n in 1..=2_000u32 {
        match link.take(rt, seat) {
            Some(Message::Op(op)) if op.id == (OpId { site: 1, seq: n }) => {}
            Some(Message::End) => return Some(n - 1),
            _ => return None,
        }
    }
    None
}

#[test]
fn a_link_takes_1024_messages(rt: HostRuntime) -> Result<(), Fail> {
    let (link, mut send, mut take) = Link::new(&rt, rt.alloc())?;
    fill(&rt, &link, &mut send)?;
    assert_eq!(rt; drain(&rt, &link, &mut take), Some(1_023));
    let settled = settle(&rt, link, send, take);
    assert_eq!(rt; (settled.sent, settled.taken), (1_024, 1_024));
    Ok(())
}

#[test]
fn there_are_as_many_links_as_are_asked_for(rt: HostRuntime) -> Result<(), Fail> {
    for count in [0, 1, 56] {
        let links = links(&rt, rt.alloc(), count)?;
        assert_eq!(rt; links.len(), usize::from(count));
    }
    Ok(())
}
