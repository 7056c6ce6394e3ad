//! Rows of the form of the words and of the lines of refusals.

use gap_base::{Row, Weight};
use gap_instance::Broken;
use gap_job::{JobFault, Key};
use gap_model::{CertFault, CertKind};
use gap_orlib::{PortFault, PortKind};
use gap_verify::{Difference, Field, Said};
use gap_words::{DemoWords, Form, QuickWords, Refusal, form_of};
use std::alloc::{AllocError, Global};
use std::test::Fail;

/// The words of a line, one space apart.
pub(crate) fn words_of(alloc: Global, line: &str) -> Result<Vec<String>, AllocError> {
    let mut words = Vec::new(alloc);
    for word in line.split(' ') {
        words.push(String::from_str(alloc, word)?)?;
    }
    Ok(words)
}

/// The form of the words.
fn said(words: &[String]) -> Form<'_> {
    form_of(words)
}

#[test]
fn reads_the_words_of_quick(rt: HostRuntime) -> Result<(), Fail> {
    let alloc = rt.alloc();
    let asked = QuickWords {
        held: 2,
        held_most: 2,
        lots: 10,
        weight: Weight { p: 1, q: 1 },
        nodes: 0,
    };
    let range = QuickWords {
        held: 1,
        held_most: 256,
        nodes: 100_000,
        ..asked
    };
    let rows = [
        ("quick A 2 10 1 1 0", Form::Quick("A", asked)),
        ("quick A 000000002 010 1 1 00", Form::Quick("A", asked)),
        ("quick A 2-2 10 1 1 0", Form::Quick("A", asked)),
        ("quick A 1-256 10 1 1 100000", Form::Quick("A", range)),
        ("quick A 2 10 1 1 100001", Form::Faulty),
        ("quick A 0000000002 10 1 1 0", Form::Faulty),
        ("quick A 2 10 2 1 0", Form::Faulty),
        ("quick A +2 10 1 1 0", Form::Faulty),
        ("quick A 2-1 10 1 1 0", Form::Faulty),
        ("quick A 0-1 10 1 1 0", Form::Faulty),
        ("quick A 1-257 10 1 1 0", Form::Faulty),
        ("quick A 1-2-3 10 1 1 0", Form::Faulty),
        ("quick A 1- 10 1 1 0", Form::Faulty),
        ("quick A -2 10 1 1 0", Form::Faulty),
        ("quick  2 10 1 1 0", Form::Faulty),
        ("quick A 2 10 1 1", Form::Faulty),
        ("quick A 2 10 1 1 0 0", Form::Faulty),
        ("--help", Form::Faulty),
        ("", Form::Faulty),
    ];
    for (line, form) in rows {
        let words = words_of(alloc, line)?;
        assert_eq!(rt; said(&words), form, "{line}");
    }
    let none: [String; 0] = [];
    assert_eq!(rt; said(&none), Form::Faulty, "no words");
    Ok(())
}

#[test]
fn reads_the_words_of_the_other_commands(rt: HostRuntime) -> Result<(), Fail> {
    let alloc = rt.alloc();
    let demo = DemoWords {
        number: 999_999_999_999_999_999,
        n: 31,
        held: 10,
        lots: 100,
        nodes: 20,
    };
    let solve = Form::Solve {
        port: "P",
        job: "J",
        cert: "C",
    };
    let verify = Form::Verify {
        port: "P",
        job: "P",
        cert: "C",
    };
    let upgrade = Form::Upgrade {
        cert: "C",
        new: "N",
    };
    let rows = [
        ("solve P J C", solve),
        ("solve P J P", Form::Faulty),
        ("solve P J J", Form::Faulty),
        ("solve P J", Form::Faulty),
        ("solve P J C D", Form::Faulty),
        ("solve P  C", Form::Faulty),
        ("check C", Form::Check("C")),
        ("check", Form::Faulty),
        ("check C C", Form::Faulty),
        ("check ", Form::Faulty),
        ("verify P P C", verify),
        ("verify C P C", Form::Faulty),
        ("verify P C C", Form::Faulty),
        ("demo 999999999999999999 31 10 100 20", Form::Demo(demo)),
        ("demo 1000000000000000000 31 10 100 20", Form::Faulty),
        ("demo 7 31 32 100 20", Form::Faulty),
        ("demo 7 31 1-2 100 20", Form::Faulty),
        ("demo 7 1 1 100 20", Form::Faulty),
        ("demo 7 31 10 100", Form::Faulty),
        ("upgrade C N", upgrade),
        ("upgrade C C", Form::Faulty),
        ("upgrade C", Form::Faulty),
        ("upgrade C N N", Form::Faulty),
        ("upgrade C ", Form::Faulty),
    ];
    for (line, form) in rows {
        let words = words_of(alloc, line)?;
        assert_eq!(rt; said(&words), form, "{line}");
    }
    Ok(())
}

/// The line of a refusal.
fn line_of(alloc: Global, refusal: Refusal) -> Result<String, Fail> {
    Ok(refusal.line(alloc)?)
}

/// The line of a certificate's fault of this kind at place 5.
fn cert_line_of(alloc: Global, kind: CertKind) -> Result<String, Fail> {
    line_of(alloc, Refusal::Certificate(CertFault { place: 5, kind }))
}

#[test]
fn says_what_is_wrong_with_a_certificate(rt: HostRuntime) -> Result<(), Fail> {
    let row = Row {
        row: 0,
        diagonal: -200_000_000_000_001,
        others: 0,
    };
    let rows = [
        (CertKind::Magic, "certificate Magic 5\n"),
        (CertKind::Short, "certificate Short 5\n"),
        (CertKind::Trail, "certificate Trail 5\n"),
        (CertKind::Range, "certificate Range 5\n"),
        (CertKind::Order, "certificate Order 5\n"),
        (
            CertKind::Shift(row),
            "certificate Shift 5 1 -200000000000001 0\n",
        ),
        (CertKind::Split, "certificate Split 5\n"),
        (CertKind::Count, "certificate Count 5\n"),
        (CertKind::Void { found: -3 }, "certificate Void 5 -3\n"),
        (
            CertKind::Weak {
                found: 1,
                claimed: 2,
            },
            "certificate Weak 5 1 2\n",
        ),
        (
            CertKind::Portfolio(Broken::Length),
            "certificate Portfolio 5 Length\n",
        ),
        (
            CertKind::Portfolio(Broken::Lots),
            "certificate Portfolio 5 Lots\n",
        ),
        (
            CertKind::Portfolio(Broken::Held),
            "certificate Portfolio 5 Held\n",
        ),
        (
            CertKind::Portfolio(Broken::Least(0)),
            "certificate Portfolio 5 Least 1\n",
        ),
        (
            CertKind::Portfolio(Broken::Greatest(255)),
            "certificate Portfolio 5 Greatest 256\n",
        ),
        (
            CertKind::Portfolio(Broken::Turnover),
            "certificate Portfolio 5 Turnover\n",
        ),
        (
            CertKind::Objective {
                found: 8,
                claimed: 9,
            },
            "certificate Objective 5 8 9\n",
        ),
        (
            CertKind::NotOpen {
                objective: 4,
                bound: 4,
            },
            "certificate NotOpen 5 4 4\n",
        ),
        (
            CertKind::Nodes {
                inner: 1,
                budget: 0,
            },
            "certificate Nodes 5 1 0\n",
        ),
    ];
    for (kind, line) in rows {
        assert_eq!(rt; cert_line_of(rt.alloc(), kind)?.as_str(), line);
    }
    let fault = CertFault {
        place: 0,
        kind: CertKind::Magic,
    };
    assert_eq!(rt; Refusal::Certificate(fault).status(), 7);
    Ok(())
}

#[test]
fn says_why_nothing_was_done(rt: HostRuntime) -> Result<(), Fail> {
    let rows = [
        (
            Refusal::Words,
            2,
            "usage: portgap quick PORT HELD LOTS P Q NODES | solve PORT JOB CERT | check CERT | verify PORT JOB CERT | demo NUMBER N HELD LOTS NODES | upgrade CERT NEW\n",
        ),
        (
            Refusal::Port(PortFault {
                place: 24,
                kind: PortKind::Missing { i: 1, j: 2 },
            }),
            5,
            "port Missing 24 1 2\n",
        ),
        (
            Refusal::Port(PortFault {
                place: 0,
                kind: PortKind::Short,
            }),
            5,
            "port Short 0\n",
        ),
        (Refusal::HeldRange, 6, "job Range held\n"),
        (Refusal::Job(JobFault::TooLong), 6, "job TooLong\n"),
        (Refusal::Job(JobFault::NotJson), 6, "job NotJson\n"),
        (Refusal::Job(JobFault::NotObject), 6, "job NotObject\n"),
        (Refusal::Job(JobFault::Unknown(1)), 6, "job Unknown 1\n"),
        (
            Refusal::Job(JobFault::Kind(Key::Lots)),
            6,
            "job Kind lots\n",
        ),
        (
            Refusal::Job(JobFault::Range(Key::Weights)),
            6,
            "job Range weights\n",
        ),
        (
            Refusal::Job(JobFault::Asset(Key::Limits)),
            6,
            "job Asset limits\n",
        ),
        (
            Refusal::Differs(Difference {
                field: Field::Greatest(1),
                found: Said::Number(10),
                wanted: Said::Number(9),
            }),
            8,
            "differs greatest 2 10 9\n",
        ),
    ];
    for (refusal, status, line) in rows {
        assert_eq!(rt; refusal.status(), status, "{line}");
        assert_eq!(rt; line_of(rt.alloc(), refusal)?.as_str(), line);
    }
    Ok(())
}
