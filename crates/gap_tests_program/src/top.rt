//! Rows of the public call over files and a sink in memory.

use crate::outside::one_file;
use crate::words::words_of;
use gap_files::{Files, MemoryFiles, MemorySink, Sink, SteadyFiles, SteadySink};
use gap_samples::certificates::{ONE, TWO};
use gap_top::run;
use std::alloc::Global;
use std::test::Fail;

/// Two assets that aren't correlated.
const A: &str = "2\n.001 .1\n.002 .2\n1 2 0\n";

/// The status of a run; what else is known of it is of no use to a test.
fn answered<F: Files, S: Sink>(alloc: Global, words: &[String], files: &mut F, sink: &mut S) -> u8 {
    run(alloc, words, files, sink)
}

/// Gives a file its content.
fn put(files: &mut SteadyFiles, name: &str, bytes: &[u8]) -> Result<(), Fail> {
    Ok(files.put(name, bytes)?)
}

/// What is answered and written for these words, where the file PORT has this text.
fn answer_to(alloc: Global, line: &str, text: &str) -> Result<(u8, SteadySink), Fail> {
    let words = words_of(alloc, line)?;
    let mut files = one_file(alloc, "PORT", text.as_bytes())?;
    let mut sink = SteadySink::new(alloc);
    let status = answered(alloc, &words, &mut files, &mut sink);
    Ok((status, sink))
}

#[test]
fn words_decide_before_any_read(rt: HostRuntime) -> Result<(), Fail> {
    let rows = [
        (
            "solve PORT JOB JOB",
            2,
            "usage: portgap quick PORT HELD LOTS P Q NODES | solve PORT JOB CERT | check CERT | verify PORT JOB CERT | demo NUMBER N HELD LOTS NODES | upgrade CERT NEW\n",
        ),
        (
            "upgrade CERT CERT",
            2,
            "usage: portgap quick PORT HELD LOTS P Q NODES | solve PORT JOB CERT | check CERT | verify PORT JOB CERT | demo NUMBER N HELD LOTS NODES | upgrade CERT NEW\n",
        ),
        (
            "quick PORT 2 10 2 1 0",
            2,
            "usage: portgap quick PORT HELD LOTS P Q NODES | solve PORT JOB CERT | check CERT | verify PORT JOB CERT | demo NUMBER N HELD LOTS NODES | upgrade CERT NEW\n",
        ),
        (
            "quick PORT 2-1 10 1 1 0",
            2,
            "usage: portgap quick PORT HELD LOTS P Q NODES | solve PORT JOB CERT | check CERT | verify PORT JOB CERT | demo NUMBER N HELD LOTS NODES | upgrade CERT NEW\n",
        ),
        (
            "--help",
            2,
            "usage: portgap quick PORT HELD LOTS P Q NODES | solve PORT JOB CERT | check CERT | verify PORT JOB CERT | demo NUMBER N HELD LOTS NODES | upgrade CERT NEW\n",
        ),
    ];
    for (line, status, text) in rows {
        let (found, sink) = answer_to(rt.alloc(), line, A)?;
        assert_eq!(rt; found, status, "{line}");
        assert_eq!(rt; sink.bytes(), text.as_bytes(), "{line}");
    }
    Ok(())
}

#[test]
fn quick_answers_one_weight(rt: HostRuntime) -> Result<(), Fail> {
    let rows = [
        (
            A,
            "quick PORT 2 10 1 1 0",
            "weight 1/1 closed nodes 0 objective 800000000000000000/100000000000000000000 bound 800000000000000000/100000000000000000000\nlots 1:8 2:2\n",
        ),
        (
            A,
            "quick PORT 1 10 1 1 100",
            "weight 1/1 closed nodes 1 objective 1000000000000000000/100000000000000000000 bound 1000000000000000000/100000000000000000000\nlots 1:10\n",
        ),
        (
            A,
            "quick PORT 1 10 1 1 0",
            "weight 1/1 open nodes 0 objective 1000000000000000000/100000000000000000000 bound 800000000000000000/100000000000000000000\nlots 1:10\n",
        ),
        (
            A,
            "quick PORT 1 10 0 1 0",
            "weight 0/1 closed nodes 0 objective -200000000000000000/100000000000000000000 bound -200000000000000000/100000000000000000000\nlots 2:10\n",
        ),
        (
            A,
            "quick PORT 2 10 1 2 0",
            "weight 1/2 open nodes 0 objective 680000000000000000/200000000000000000000 bound 676718750000000000/200000000000000000000\nlots 1:8 2:2\n",
        ),
        (
            A,
            "quick PORT 2 10 1 2 1",
            "weight 1/2 open nodes 1 objective 680000000000000000/200000000000000000000 bound 676718750000000000/200000000000000000000\nlots 1:8 2:2\n",
        ),
        (
            A,
            "quick PORT 2 10 1 2 100",
            "weight 1/2 closed nodes 3 objective 680000000000000000/200000000000000000000 bound 680000000000000000/200000000000000000000\nlots 1:8 2:2\n",
        ),
        (A, "quick PORT 2 1 1 1 0", "weight 1/1 none nodes 0\n"),
        (
            A,
            "quick PORT 1-2 10 1 1 0",
            "weight 1/1 open nodes 0 objective 1000000000000000000/100000000000000000000 bound 800000000000000000/100000000000000000000\nlots 1:10\n",
        ),
        (
            A,
            "quick PORT 1-2 10 1 1 1",
            "weight 1/1 closed nodes 1 objective 800000000000000000/100000000000000000000 bound 800000000000000000/100000000000000000000\nlots 1:8 2:2\n",
        ),
        (
            "2\n.001 .1\n.001 .1\n1 2 0\n",
            "quick PORT 1 10 1 1 100",
            "weight 1/1 closed nodes 1 objective 1000000000000000000/100000000000000000000 bound 1000000000000000000/100000000000000000000\nlots 1:10\n",
        ),
        (
            "3\n.001 .1\n.002 .2\n0 1\n1 2 0\n1 3 0\n2 3 0\n",
            "quick PORT 2 10 1 2 1",
            "weight 1/2 open nodes 1 objective 680000000000000000/200000000000000000000 bound 611718750000000000/200000000000000000000\nlots 1:8 2:2\n",
        ),
        (
            "2 1e-3 .1 .0020000 2e-1 2 1 0 1 2 .0000001 2 2 1",
            "quick PORT 2 10 1 1 0",
            "weight 1/1 closed nodes 0 objective 800000000000000000/100000000000000000000 bound 800000000000000000/100000000000000000000\nlots 1:8 2:2\n",
        ),
    ];
    for (port, line, text) in rows {
        let (status, sink) = answer_to(rt.alloc(), line, port)?;
        assert_eq!(rt; status, 0, "{line}");
        assert_eq!(rt; sink.bytes(), text.as_bytes(), "{line}");
    }
    Ok(())
}

/// What `solve` answers and writes for a port file and a job file of these texts.
fn solved(alloc: Global, port: &str, job: &str) -> Result<(u8, SteadySink, SteadyFiles), Fail> {
    let words = words_of(alloc, "solve PORT JOB CERT")?;
    let mut files = SteadyFiles::new(alloc);
    put(&mut files, "PORT", port.as_bytes())?;
    put(&mut files, "JOB", job.as_bytes())?;
    let mut sink = SteadySink::new(alloc);
    let status = answered(alloc, &words, &mut files, &mut sink);
    Ok((status, sink, files))
}

#[test]
fn solve_leaves_the_certificate(rt: HostRuntime) -> Result<(), Fail> {
    let (status, _, files) = solved(rt.alloc(), A, JOB)?;
    assert_eq!(rt; status, 0);
    assert_eq!(rt; files.content("CERT"), Some(TWO.as_slice()));
    Ok(())
}

#[test]
fn solve_answers_a_job(rt: HostRuntime) -> Result<(), Fail> {
    let rows = [
        (
            A,
            r#"{"lots":10,"held":2,"greatest":4,"weights":[[1,1]]}"#,
            "assets 2 rounded 0 shift 0\nweight 1/1 none nodes 0\n",
        ),
        (
            A,
            r#"{"lots":10,"held":2,"present":[[1,5],[2,5]],"turnover":0,"weights":[[1,1]],"nodes":0}"#,
            "assets 2 rounded 0 shift 0\nweight 1/1 closed nodes 0 objective 1250000000000000000/100000000000000000000 bound 1250000000000000000/100000000000000000000\nlots 1:5 2:5\nrow 1 weight 1/1 risk 1250000000000000000/100000000000000000000 return 15000/10000000 efficient\n",
        ),
        (
            A,
            r#"{"lots":10,"held":2,"present":[[1,8],[2,1]],"turnover":0,"weights":[[1,1]],"nodes":0}"#,
            "assets 2 rounded 0 shift 0\nweight 1/1 none nodes 0\n",
        ),
        (
            "3\n0 .1\n0 .1\n0 .1\n1 2 -1\n1 3 -1\n2 3 -1\n",
            r#"{"lots":9,"held":3,"weights":[[1,1]],"nodes":999}"#,
            "assets 3 rounded 0 shift 30000000000000000\nweight 1/1 closed nodes 10 objective -270000000000000000/81000000000000000000 bound -270000000000000000/81000000000000000000\nlots 1:3 2:3 3:3\nrow 1 weight 1/1 risk -270000000000000000/81000000000000000000 return 0/9000000 efficient\n",
        ),
        (
            A,
            r#"{"lots":10,"held":2,"weights":[[1,1]],"nodes":0}"#,
            "assets 2 rounded 0 shift 0\nweight 1/1 closed nodes 0 objective 800000000000000000/100000000000000000000 bound 800000000000000000/100000000000000000000\nlots 1:8 2:2\nrow 1 weight 1/1 risk 800000000000000000/100000000000000000000 return 12000/10000000 efficient\n",
        ),
        (
            "5\n0 .1\n0 .1\n0 .1\n0 .1\n0 .1\n1 2 .6\n1 3 .6\n1 4 .6\n1 5 .6\n2 3 .36\n2 4 .36\n2 5 .36\n3 4 .36\n3 5 .36\n4 5 .36\n",
            r#"{"lots":10,"held":2,"weights":[[1,1]],"nodes":0}"#,
            "assets 5 rounded 0 shift 0\nweight 1/1 open nodes 0 objective 680000000000000000/100000000000000000000 bound 520000000000000000/100000000000000000000\nlots 2:5 3:5\nrow 1 weight 1/1 risk 680000000000000000/100000000000000000000 return 0/10000000 efficient\n",
        ),
        (
            "2\n.001 .2\n.001 .1\n1 2 0\n",
            r#"{"lots":10,"held":1,"weights":[[0,1],[1,1]],"nodes":10}"#,
            "assets 2 rounded 0 shift 0\nweight 0/1 closed nodes 0 objective -100000000000000000/100000000000000000000 bound -100000000000000000/100000000000000000000\nlots 1:10\nweight 1/1 closed nodes 1 objective 1000000000000000000/100000000000000000000 bound 1000000000000000000/100000000000000000000\nlots 2:10\nrow 1 weight 0/1 risk 4000000000000000000/100000000000000000000 return 10000/10000000 dominated\nrow 2 weight 1/1 risk 1000000000000000000/100000000000000000000 return 10000/10000000 efficient\n",
        ),
        (
            A,
            r#"{"lots":10,"held":2,"weights":[[1,2]],"nodes":120,"workers":16}"#,
            "assets 2 rounded 0 shift 0\nweight 1/2 closed nodes 3 objective 680000000000000000/200000000000000000000 bound 680000000000000000/200000000000000000000\nlots 1:8 2:2\nrow 1 weight 1/2 risk 800000000000000000/100000000000000000000 return 12000/10000000 efficient\n",
        ),
        (
            A,
            r#"{"lots":10,"held":[1,2],"weights":[[1,1]],"nodes":1}"#,
            "assets 2 rounded 0 shift 0\nweight 1/1 closed nodes 1 objective 800000000000000000/100000000000000000000 bound 800000000000000000/100000000000000000000\nlots 1:8 2:2\nrow 1 weight 1/1 risk 800000000000000000/100000000000000000000 return 12000/10000000 efficient\n",
        ),
    ];
    for (port, job, text) in rows {
        let (status, sink, _) = solved(rt.alloc(), port, job)?;
        assert_eq!(rt; status, 0, "{job}");
        assert_eq!(rt; sink.bytes(), text.as_bytes(), "{job}");
    }
    Ok(())
}

#[test]
fn refuses_files_and_jobs(rt: HostRuntime) -> Result<(), Fail> {
    let rows = [
        (A, "quick PORT 3 10 1 1 0", 6, "job Range held\n"),
        (A, "quick PORT 2-3 10 1 1 0", 6, "job Range held\n"),
        (
            "2\n.001 .1\n.002 .2\n1 2 0\n2 1 .5\n",
            "quick PORT 2 10 1 1 0",
            5,
            "port Conflict 28 1 2\n",
        ),
        (
            "2\n.001 .1\n.002 .2\n",
            "quick PORT 2 10 1 1 0",
            5,
            "port Missing 18 1 2\n",
        ),
        (
            "2\n.001 .1\n.002 .2\n1 2",
            "quick PORT 2 10 1 1 0",
            5,
            "port Short 21\n",
        ),
        ("", "quick PORT 2 10 1 1 0", 5, "port Short 0\n"),
        ("1", "quick PORT 2 10 1 1 0", 5, "port Count 0\n"),
        ("257", "quick PORT 2 10 1 1 0", 5, "port Count 0\n"),
        (
            "2\n.001 -.1\n",
            "quick PORT 2 10 1 1 0",
            5,
            "port Deviation 7\n",
        ),
        (
            "2\n.001 .1\n.002 .2\n1 2 1.000001\n",
            "quick PORT 2 10 1 1 0",
            5,
            "port Range 22\n",
        ),
        (
            "2\n.001 .1\n.002 .2\n1 2 0\n3",
            "quick PORT 2 10 1 1 0",
            5,
            "port Index 24\n",
        ),
        (
            "2\n.001 .1\n.002 .2\n1 2 0\n2 2 .9",
            "quick PORT 2 10 1 1 0",
            5,
            "port Diagonal 28\n",
        ),
        (
            "2\n.001 x\n",
            "quick PORT 2 10 1 1 0",
            5,
            "port Numeral 7\n",
        ),
    ];
    for (port, line, status, text) in rows {
        let (found, sink) = answer_to(rt.alloc(), line, port)?;
        assert_eq!(rt; found, status, "{port}");
        assert_eq!(rt; sink.bytes(), text.as_bytes(), "{port}");
    }
    Ok(())
}

#[test]
fn solve_refuses_jobs(rt: HostRuntime) -> Result<(), Fail> {
    let rows = [
        (A, r#"{"held":2}"#, 6, "job Kind lots\n"),
        (A, r#"{"lots":10,"zz":1}"#, 6, "job Unknown 1\n"),
        (A, "[]", 6, "job NotObject\n"),
        (A, "{", 6, "job NotJson\n"),
        (
            A,
            r#"{"lots":10,"held":3,"weights":[[1,1]]}"#,
            6,
            "job Range held\n",
        ),
        ("", "{", 5, "port Short 0\n"),
    ];
    for (port, job, status, text) in rows {
        let (found, sink, files) = solved(rt.alloc(), port, job)?;
        assert_eq!(rt; found, status, "{job}");
        assert_eq!(rt; sink.bytes(), text.as_bytes(), "{job}");
        assert!(rt; files.content("CERT").is_none(), "{job}");
    }
    Ok(())
}

/// A job for two assets in ten lots of which both are held, for risk alone.
const JOB: &str = r#"{"lots":10,"held":2,"weights":[[1,1]],"nodes":0}"#;

/// What `check` and `verify` tell of its certificate.
const VERDICT: &str =
    "weight 1/1 closed objective 800000000000000000/100000000000000000000 bound 800000000000000000/100000000000000000000\nyes\n";

/// What is answered and written for these words over these files.
fn told(alloc: Global, files: &mut SteadyFiles, line: &str) -> Result<(u8, SteadySink), Fail> {
    let words = words_of(alloc, line)?;
    let mut sink = SteadySink::new(alloc);
    let status = answered(alloc, &words, files, &mut sink);
    Ok((status, sink))
}

#[test]
fn check_tells_what_a_certificate_says(rt: HostRuntime) -> Result<(), Fail> {
    let alloc = rt.alloc();
    let mut files = SteadyFiles::new(alloc);
    put(&mut files, "PORT", A.as_bytes())?;
    put(&mut files, "ONE", ONE.as_slice())?;
    put(&mut files, "TWO", TWO.as_slice())?;
    put(&mut files, "CUT", &TWO[..187])?;
    let mut longer = [0u8; 192];
    longer[..191].copy_from_slice(&TWO);
    put(&mut files, "LONGER", longer.as_slice())?;
    // the last byte of the objective
    let mut raised = TWO;
    raised[138] = 1;
    put(&mut files, "RAISED", raised.as_slice())?;
    let rows = [
        ("check ONE", 0, VERDICT),
        ("check TWO", 0, VERDICT),
        ("check CUT", 7, "certificate Short 187\n"),
        ("check LONGER", 7, "certificate Trail 191\n"),
        (
            "check RAISED",
            7,
            "certificate Objective 123 800000000000000000 800000000000000001\n",
        ),
        ("check PORT", 7, "certificate Magic 0\n"),
    ];
    for (line, status, text) in rows {
        let (found, sink) = told(alloc, &mut files, line)?;
        assert_eq!(rt; found, status, "{line}");
        assert_eq!(rt; sink.bytes(), text.as_bytes(), "{line}");
    }
    Ok(())
}

#[test]
fn verify_compares_a_certificate(rt: HostRuntime) -> Result<(), Fail> {
    let alloc = rt.alloc();
    let (_, _, mut files) = solved(alloc, A, JOB)?;
    let rows = [
        (JOB, 0, VERDICT),
        (
            r#"{"lots":10,"held":2,"weights":[[1,1]],"nodes":0,"workers":16}"#,
            0,
            VERDICT,
        ),
        (
            r#"{"lots":10,"held":2,"weights":[[1,1]],"nodes":0,"limits":[[2,1,9]]}"#,
            8,
            "differs greatest 2 10 9\n",
        ),
        (
            r#"{"lots":10,"held":2,"weights":[[1,1]],"nodes":0,"present":[[2,3]]}"#,
            8,
            "differs present 2 0 3\n",
        ),
        (
            r#"{"lots":10,"held":2,"weights":[[1,1]],"nodes":1}"#,
            8,
            "differs nodes 0 1\n",
        ),
        (
            r#"{"lots":10,"held":2,"weights":[[1,2]],"nodes":0}"#,
            8,
            "differs weight 1 1/1 1/2\n",
        ),
        ("{", 6, "job NotJson\n"),
    ];
    for (job, status, text) in rows {
        put(&mut files, "JOB", job.as_bytes())?;
        let (found, sink) = told(alloc, &mut files, "verify PORT JOB CERT")?;
        assert_eq!(rt; found, status, "{job}");
        assert_eq!(rt; sink.bytes(), text.as_bytes(), "{job}");
    }
    put(&mut files, "JOB", JOB.as_bytes())?;
    put(&mut files, "CERT", b"GAPCERT3".as_slice())?;
    let (found, sink) = told(alloc, &mut files, "verify PORT JOB CERT")?;
    assert_eq!(rt; found, 7, "a certificate of no version");
    assert_eq!(rt; sink.bytes(), b"certificate Magic 7\n".as_slice());
    put(&mut files, "PORT", b"1".as_slice())?;
    let (found, sink) = told(alloc, &mut files, "verify PORT JOB CERT")?;
    assert_eq!(rt; found, 5, "a port file comes first");
    assert_eq!(rt; sink.bytes(), b"port Count 0\n".as_slice());
    Ok(())
}

#[test]
fn upgrade_writes_version_two(rt: HostRuntime) -> Result<(), Fail> {
    let alloc = rt.alloc();
    let mut files = SteadyFiles::new(alloc);
    put(&mut files, "PORT", A.as_bytes())?;
    put(&mut files, "ONE", ONE.as_slice())?;
    for (line, name) in [("upgrade ONE NEW", "NEW"), ("upgrade NEW AGAIN", "AGAIN")] {
        let (found, sink) = told(alloc, &mut files, line)?;
        assert_eq!(rt; found, 0, "{line}");
        assert_eq!(rt; sink.bytes(), VERDICT.as_bytes(), "{line}");
        assert_eq!(rt; files.content(name), Some(TWO.as_slice()), "{line}");
    }
    // read as version 2, the greatest number held is 0
    let mut mixed = ONE;
    mixed[7] = b'2';
    put(&mut files, "MIXED", mixed.as_slice())?;
    let rows = [
        ("upgrade MIXED NEW", 7, "certificate Range 14\n"),
        ("check MIXED", 7, "certificate Range 14\n"),
        ("upgrade PORT NEW", 7, "certificate Magic 0\n"),
    ];
    for (line, status, text) in rows {
        let (found, sink) = told(alloc, &mut files, line)?;
        assert_eq!(rt; found, status, "{line}");
        assert_eq!(rt; sink.bytes(), text.as_bytes(), "{line}");
    }
    assert_eq!(rt; files.content("NEW"), Some(TWO.as_slice()), "as it was");
    Ok(())
}

#[test]
fn demo_is_the_same_at_each_run(rt: HostRuntime) -> Result<(), Fail> {
    let alloc = rt.alloc();
    let mut files = SteadyFiles::new(alloc);
    let (status, first) = told(alloc, &mut files, "demo 7 31 10 100 20")?;
    assert_eq!(rt; status, 0);
    assert!(rt;
        first
            .bytes()
            .starts_with(b"assets 31 rounded 0 shift ".as_slice())
    );
    // the market's line, and for each weight two lines and one of the frontier
    assert_eq!(rt; lines_in(first.bytes()), 16);
    let (_, second) = told(alloc, &mut files, "demo 7 31 10 100 20")?;
    assert_eq!(rt; first.bytes(), second.bytes());
    Ok(())
}

#[test]
fn keeps_a_refusal_whose_line_fails(rt: HostRuntime) -> Result<(), Fail> {
    let alloc = rt.alloc();
    let words = words_of(alloc, "--help")?;
    let mut files = MemoryFiles::new(alloc, Vec::new(alloc));
    let mut sink = MemorySink::new(alloc, vec![in alloc; 1u64]?);
    let status = answered(alloc, &words, &mut files, &mut sink);
    assert_eq!(rt; status, 2);
    assert_eq!(rt; sink.bytes(), b"".as_slice(), "the write failed");
    Ok(())
}

/// Gives one of the files that fail its content.
fn hold(files: &mut MemoryFiles, name: &str, bytes: &[u8]) -> Result<(), Fail> {
    Ok(files.put(name, bytes)?)
}

/// What is answered to these words over a port file, a job, its certificate and this in version 1, where one call on the
/// files and one write are to fail, by their numbers from 1; with 0 none is.
fn failing(
    alloc: Global,
    line: &str,
    call: u64,
    write: u64,
) -> Result<(u8, MemoryFiles, MemorySink), Fail> {
    let words = words_of(alloc, line)?;
    let mut files = MemoryFiles::new(alloc, vec![in alloc; call]?);
    hold(&mut files, "PORT", A.as_bytes())?;
    hold(&mut files, "JOB", JOB.as_bytes())?;
    hold(&mut files, "CERT", TWO.as_slice())?;
    hold(&mut files, "ONE", ONE.as_slice())?;
    let mut sink = MemorySink::new(alloc, vec![in alloc; write]?);
    let status = answered(alloc, &words, &mut files, &mut sink);
    Ok((status, files, sink))
}

/// How many lines these bytes are.
fn lines_in(bytes: &[u8]) -> u32 {
    let mut lines = 0u32;
    for byte in bytes {
        if *byte == b'\n' {
            lines = lines.saturating_add(1);
        }
    }
    lines
}

// Words, and the file that they have a certificate written to or read from.
const QUICK: (&str, &str) = ("quick PORT 2 10 1 1 0", "");

const SOLVE: (&str, &str) = ("solve PORT JOB NEW", "NEW");

const CHECK: (&str, &str) = ("check CERT", "CERT");

const VERIFY: (&str, &str) = ("verify PORT JOB CERT", "CERT");

const UPGRADE: (&str, &str) = ("upgrade ONE NEW", "NEW");

#[test]
fn a_failing_call_on_files_has_its_status_and_leaves_a_front(rt: HostRuntime) -> Result<(), Fail> {
    // the words; the call that is to fail, at last none; the status, the lines printed, the length of the certificate
    let rows = [
        (QUICK, 1u64, 3u8, 0u32, 0usize),
        (QUICK, 2, 3, 0, 0),
        (QUICK, 3, 4, 0, 0),
        (QUICK, 4, 4, 0, 0),
        (QUICK, 5, 4, 0, 110),
        (QUICK, 6, 4, 2, 187),
        (QUICK, 7, 0, 2, 191),
        (SOLVE, 1, 3, 0, 0),
        (SOLVE, 2, 3, 0, 0),
        (SOLVE, 3, 3, 0, 0),
        (SOLVE, 4, 3, 0, 0),
        (SOLVE, 5, 4, 0, 0),
        (SOLVE, 6, 4, 0, 0),
        (SOLVE, 7, 4, 1, 110),
        (SOLVE, 8, 4, 4, 187),
        (SOLVE, 9, 0, 4, 191),
        (CHECK, 1, 3, 0, 191),
        (CHECK, 2, 3, 0, 191),
        (CHECK, 3, 0, 2, 191),
        (VERIFY, 1, 3, 0, 191),
        (VERIFY, 2, 3, 0, 191),
        (VERIFY, 3, 3, 0, 191),
        (VERIFY, 4, 3, 0, 191),
        (VERIFY, 5, 3, 0, 191),
        (VERIFY, 6, 3, 0, 191),
        (VERIFY, 7, 0, 2, 191),
        (UPGRADE, 1, 3, 0, 0),
        (UPGRADE, 2, 3, 0, 0),
        (UPGRADE, 3, 4, 0, 0),
        (UPGRADE, 4, 3, 0, 0),
        (UPGRADE, 5, 4, 0, 0),
        (UPGRADE, 6, 3, 0, 187),
        (UPGRADE, 7, 4, 2, 187),
        (UPGRADE, 8, 0, 2, 191),
    ];
    for ((line, name), call, due, lines, length) in rows {
        let (status, files, sink) = failing(rt.alloc(), line, call, 0)?;
        assert_eq!(rt; status, due, "{line}, call {call}");
        assert_eq!(rt; lines_in(sink.bytes()), lines, "{line}, call {call}");
        let bytes = files.content(name).unwrap_or(b"".as_slice());
        assert_eq!(rt; bytes.len(), length, "{line}, call {call}");
        assert!(rt; TWO.starts_with(bytes), "{line}, call {call}");
    }
    Ok(())
}

#[test]
fn a_failing_write_has_its_status_and_leaves_a_front(rt: HostRuntime) -> Result<(), Fail> {
    // the words; the write that is to fail, at last none; the status, the lines printed, the length of the certificate
    let rows = [
        (QUICK, 1u64, 4u8, 0u32, 187usize),
        (QUICK, 2, 4, 1, 187),
        (QUICK, 3, 0, 2, 191),
        (SOLVE, 1, 4, 0, 110),
        (SOLVE, 2, 4, 1, 187),
        (SOLVE, 3, 4, 2, 187),
        (SOLVE, 4, 4, 3, 187),
        (SOLVE, 5, 0, 4, 191),
        (CHECK, 1, 4, 0, 191),
        (CHECK, 2, 0, 2, 191),
        (VERIFY, 1, 4, 0, 191),
        (VERIFY, 2, 0, 2, 191),
        (UPGRADE, 1, 4, 0, 187),
        (UPGRADE, 2, 0, 2, 191),
    ];
    for ((line, name), write, due, lines, length) in rows {
        let (status, files, sink) = failing(rt.alloc(), line, 0, write)?;
        assert_eq!(rt; status, due, "{line}, write {write}");
        assert_eq!(rt; lines_in(sink.bytes()), lines, "{line}, write {write}");
        let bytes = files.content(name).unwrap_or(b"".as_slice());
        assert_eq!(rt; bytes.len(), length, "{line}, write {write}");
        assert!(rt; TWO.starts_with(bytes), "{line}, write {write}");
    }
    Ok(())
}

#[test]
fn a_missing_file_is_a_read_fault(rt: HostRuntime) -> Result<(), Fail> {
    let rows = [
        "quick NONE 2 10 1 1 0",
        "solve NONE JOB NEW",
        "solve PORT NONE NEW",
        "check NONE",
        "verify NONE JOB CERT",
        "verify PORT NONE CERT",
        "verify PORT JOB NONE",
        "upgrade NONE NEW",
    ];
    for line in rows {
        let (status, files, sink) = failing(rt.alloc(), line, 0, 0)?;
        assert_eq!(rt; status, 3, "{line}");
        assert_eq!(rt; sink.bytes(), b"".as_slice(), "{line}");
        assert!(rt; files.content("NEW").is_none(), "{line}");
    }
    Ok(())
}
