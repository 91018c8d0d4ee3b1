//! Lines of a book, and what a session answers to them.
use crate::answers::{mark, points};
use crate::draws::{as_numbers, window};
use book::{MarkLine, Reply, first_line};
use draw::Entry;
use plan::Place;
use session::Session;
use std::process::Abort;
use std::test::Fail;

// Gives the session lines and compares each answer with the one expected.
fn told(rt: &impl Abort, session: &mut Session<'_>, lines: &[(&str, Reply)]) {
    for (line, wanted) in lines {
        assert_eq!(rt; session.answer(line.as_bytes()), *wanted, "{line}");
    }
}

#[test]
fn no_command_is_taken_before_a_plan_is_opened(rt: HostRuntime) {
    let mut places = [Place::vacant(points(0)); 256];
    let mut session = Session::new(&mut places);
    told(
        &rt,
        &mut session,
        &[
            ("E 0 0 1", Reply::No(24)),
            ("L 0 0", Reply::No(24)),
            ("S 0 0", Reply::No(24)),
            ("G 0 0 1", Reply::No(24)),
            ("N 11", Reply::No(1)),
            ("L 0 0", Reply::No(24)),
            ("N 0", Reply::Done),
            ("L 0 0", Reply::Vacant),
        ],
    );
}

#[test]
fn a_refused_opening_keeps_the_plan(rt: HostRuntime) {
    let mut places = [Place::vacant(points(0)); 256];
    let mut session = Session::new(&mut places);
    told(
        &rt,
        &mut session,
        &[
            ("N 2", Reply::Done),
            ("E 3 3 65535", Reply::Done),
            ("N 11", Reply::No(1)),
            ("L 3 3", Reply::Grade(65535)),
            ("N 2", Reply::Done),
            ("L 3 3", Reply::Vacant),
        ],
    );
}

#[test]
fn a_line_of_another_form_is_unusable(rt: HostRuntime) {
    let mut places = [Place::vacant(points(0)); 256];
    let mut session = Session::new(&mut places);
    told(
        &rt,
        &mut session,
        &[
            ("N 10", Reply::Done),
            ("", Reply::No(24)),
            ("e 1 1 1", Reply::No(24)),
            ("E  1 1 1", Reply::No(24)),
            (" E 1 1 1", Reply::No(24)),
            ("E 1 1 1 ", Reply::No(24)),
            ("E\t1\t1\t1", Reply::No(24)),
            ("E 1 1 1\r", Reply::No(24)),
            ("E 000001 1 1", Reply::No(24)),
            ("E 1 1 65536", Reply::No(24)),
            ("E 1 1", Reply::No(24)),
            ("É 1 1 1", Reply::No(24)),
            ("E 00001 00001 00007", Reply::Done),
            ("L 1 1", Reply::Grade(7)),
        ],
    );
}

#[test]
fn a_draw_is_read_and_refused(rt: HostRuntime) {
    let mut places = [Place::vacant(points(0)); 256];
    let mut session = Session::new(&mut places);
    told(
        &rt,
        &mut session,
        &[
            ("N 1", Reply::Done),
            ("D 0 0 1 1 1", Reply::No(24)),
            ("D 0 0 1 1 257", Reply::No(24)),
        ],
    );
}

#[test]
fn a_refused_draw_tells_the_first_reason(rt: HostRuntime) {
    let mut places = [Place::vacant(points(0)); 9];
    let mut session = Session::new(&mut places);
    told(&rt, &mut session, &[("N 2", Reply::Done)]);
    let mut queue = [Entry::vacant(points(0)); 8];
    let mut list = [mark(0, 0, 0); 4];
    let turned = window(1, 0, 0, 1);
    assert_eq!(rt;
        session.draw(turned, 5, &mut queue, &mut list),
        Err(Reply::No(24))
    );
    assert_eq!(rt;
        session.draw(turned, 0, &mut queue, &mut list),
        Err(Reply::No(19))
    );
    assert_eq!(rt;
        session.draw(window(0, 0, 1, 1), 0, &mut queue, &mut list),
        Err(Reply::No(20))
    );
}

#[test]
fn a_draw_tells_its_counts_and_its_marks(rt: HostRuntime) -> Result<(), Fail> {
    let mut places = [Place::vacant(points(0)); 9];
    let mut session = Session::new(&mut places);
    told(
        &rt,
        &mut session,
        &[
            ("N 2", Reply::Done),
            ("E 0 0 5", Reply::Done),
            ("E 0 3 9", Reply::Done),
            ("E 1 1 5", Reply::Done),
            ("E 2 1 7", Reply::Done),
            ("E 3 3 1", Reply::Done),
        ],
    );
    let mut queue = [Entry::vacant(points(0)); 8];
    let mut list = [mark(9, 9, 9); 4];
    let drawn = session.draw(window(1, 1, 1, 2), 2, &mut queue, &mut list)?;
    let first = format!(in rt.alloc(); "{drawn}")?;
    assert_eq!(rt; first.as_str(), "drawn 1 opened 3");
    let [row, col, grade] = as_numbers(list[0]);
    let drawn = MarkLine { row, col, grade };
    let next = format!(in rt.alloc(); "{drawn}")?;
    assert_eq!(rt; next.as_str(), "1 1 5");
    assert_eq!(rt; as_numbers(list[1]), [9, 9, 9]);
    Ok(())
}

#[test]
fn a_last_newline_starts_no_line(rt: HostRuntime) -> Result<(), Fail> {
    assert!(rt; first_line(b"").is_none());
    let (line, rest) = first_line(b"N 2\nL").ok_or("no line")?;
    assert_eq!(rt; line, b"N 2".as_slice());
    assert_eq!(rt; rest, b"L".as_slice());
    let (line, rest) = first_line(b"\n\n").ok_or("no line")?;
    assert!(rt; line.is_empty());
    let (line, rest) = first_line(rest).ok_or("no second line")?;
    assert!(rt; line.is_empty());
    assert!(rt; rest.is_empty());
    Ok(())
}
