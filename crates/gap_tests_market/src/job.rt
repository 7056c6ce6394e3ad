use gap_base::{Job, Lots, Weights};
use gap_job::JobFault::{Asset, Kind, NotJson, NotObject, Range, TooLong, Unknown};
use gap_job::{JobFault, JobStop, Key, read_job};
use std::alloc::Global;
use std::test::Fail;

// What is wrong with a job of three assets, if something is; and None for want of memory too.
fn fault(alloc: Global, text: &str) -> Option<JobFault> {
    match read_job(alloc, text.as_bytes(), 3) {
        Err(JobStop::Fault(fault)) => Some(fault),
        _ => None,
    }
}

// What is wrong with a job of which these keys are said after those that have to stand.
fn fault_with(alloc: Global, keys: &str) -> Option<JobFault> {
    let text = format!(in alloc; "{{\"lots\":10,\"held\":2,\"weights\":[[1,2]],{keys}}}").ok()?;
    fault(alloc, text.as_str())
}

// Is it a job of three assets with these keys?
fn is_job(alloc: Global, keys: &str) -> bool {
    match format!(in alloc; "{{\"lots\":10,\"held\":2,\"weights\":[[1,2]],{keys}}}") {
        Ok(text) => read_job(alloc, text.as_bytes(), 3).is_ok(),
        Err(_) => false,
    }
}

/// The job of this text for two assets.
fn read(alloc: Global, text: &[u8]) -> Result<Job, JobStop> {
    read_job(alloc, text, 2)
}

/// The numbers of a list of two.
fn pair(list: &Lots) -> Option<(u16, u16)> {
    if list.len() == 2 {
        Some((list.get(0), list.get(1)))
    } else {
        None
    }
}

/// The least and the greatest numbers of lots of two assets, and the lots at present.
fn lists(job: &Job) -> [Option<(u16, u16)>; 3] {
    [pair(&job.least), pair(&job.greatest), pair(&job.present)]
}

/// The lots, how many assets are held at least and at most, the turnover limit, the nodes and the workers.
fn numbers(job: &Job) -> (u16, u16, u16, Option<u32>, u32, u8) {
    (
        job.lots,
        job.held,
        job.held_most,
        job.turnover,
        job.nodes,
        job.workers,
    )
}

/// The weights, as many as two.
fn weights_said(job: &Job) -> [Option<(u8, u8)>; 2] {
    [said_at(&job.weights, 0), said_at(&job.weights, 1)]
}

/// The weight at a place, if there is one.
fn said_at(weights: &Weights, k: u8) -> Option<(u8, u8)> {
    if k < weights.len() {
        let weight = weights.get(k);
        Some((weight.p, weight.q))
    } else {
        None
    }
}

#[test]
fn takes_defaults(rt: HostRuntime) -> Result<(), Fail> {
    let job = read(rt.alloc(), br#"{"lots":10,"held":2,"weights":[[1,2]]}"#)?;
    assert_eq!(rt; numbers(&job), (10, 2, 2, None, 1_000, 1));
    let due = [Some((1, 1)), Some((10, 10)), Some((0, 0))];
    assert_eq!(rt; lists(&job), due);
    assert_eq!(rt; weights_said(&job), [Some((1, 2)), None]);
    Ok(())
}

#[test]
fn takes_what_is_said(rt: HostRuntime) -> Result<(), Fail> {
    let text = br#"{"workers":16,"nodes":0,"weights":[[0,100],[7,7]],"turnover":3000000,
        "present":[[2,10000]],"limits":[[2,9,3]],"greatest":8,"least":2,"held":[1,2],"lots":9,"lots":10}"#;
    let job = read(rt.alloc(), text)?;
    let due = (10, 1, 2, Some(3_000_000), 0, 16);
    assert_eq!(rt; numbers(&job), due);
    let due = [Some((2, 9)), Some((8, 3)), Some((0, 10_000))];
    assert_eq!(rt; lists(&job), due);
    assert_eq!(rt; weights_said(&job), [Some((0, 100)), Some((7, 7))]);
    Ok(())
}

#[test]
fn judges_the_text_first(rt: HostRuntime) {
    let alloc = rt.alloc();
    let rows = [
        ("[]", NotObject),
        ("{", NotJson),
        ("", NotJson),
        (r#"{"lots":10,"zz":1}"#, Unknown(1)),
        (r#"{"lots":"x","Lots":1}"#, Unknown(0)),
        (r#"{"held":2,"weights":[[1,2]]}"#, Kind(Key::Lots)),
        (r#"{"lots":10,"weights":[[1,2]]}"#, Kind(Key::Held)),
        (r#"{"lots":10,"held":2}"#, Kind(Key::Weights)),
    ];
    for (text, wanted) in rows {
        assert_eq!(rt; fault(alloc, text), Some(wanted), "{text}");
    }
    let bytes = read_job(alloc, b"{\"\xFF\":1}", 3);
    assert!(rt; matches!(bytes, Err(JobStop::Fault(NotJson))), "no UTF-8");
}

#[test]
fn takes_a_mebibyte_at_most(rt: HostRuntime) -> Result<(), Fail> {
    let mut text = String::from_str(rt.alloc(), "")?;
    for _ in 0..65_536u32 {
        text.push_str("                ")?;
    }
    assert_eq!(rt; fault(rt.alloc(), text.as_str()), Some(NotJson));
    text.push_str(" ")?;
    assert_eq!(rt; fault(rt.alloc(), text.as_str()), Some(TooLong));
    Ok(())
}

// Each key with each kind of fault that it can have; an earlier key's fault comes first.

#[test]
fn says_what_is_wrong_with_lots_and_held(rt: HostRuntime) {
    for (keys, wanted) in [
        (r#""lots":null"#, Kind(Key::Lots)),
        (r#""lots":100.0"#, Kind(Key::Lots)),
        (r#""lots":0"#, Range(Key::Lots)),
        (r#""lots":10001"#, Range(Key::Lots)),
        (r#""held":null"#, Kind(Key::Held)),
        (r#""held":[1]"#, Kind(Key::Held)),
        (r#""held":[1,2,3]"#, Kind(Key::Held)),
        (r#""held":[1,2.0]"#, Kind(Key::Held)),
        (r#""held":0"#, Range(Key::Held)),
        (r#""held":4"#, Range(Key::Held)),
        (r#""held":[0,2]"#, Range(Key::Held)),
        (r#""held":[2,1]"#, Range(Key::Held)),
        (r#""held":[2,4]"#, Range(Key::Held)),
    ] {
        assert_eq!(rt; fault_with(rt.alloc(), keys), Some(wanted), "{keys}");
    }
}

#[test]
fn says_what_is_wrong_with_least_and_greatest(rt: HostRuntime) {
    for (keys, wanted) in [
        (r#""least":null"#, Kind(Key::Least)),
        (r#""least":[]"#, Kind(Key::Least)),
        (r#""least":0"#, Range(Key::Least)),
        (r#""least":11"#, Range(Key::Least)),
        (r#""greatest":null"#, Kind(Key::Greatest)),
        (r#""greatest":-1"#, Kind(Key::Greatest)),
        (r#""greatest":0"#, Range(Key::Greatest)),
        (r#""greatest":11"#, Range(Key::Greatest)),
    ] {
        assert_eq!(rt; fault_with(rt.alloc(), keys), Some(wanted), "{keys}");
    }
}

#[test]
fn says_what_is_wrong_with_limits_by_asset(rt: HostRuntime) {
    for (keys, wanted) in [
        (r#""limits":null"#, Kind(Key::Limits)),
        (r#""limits":1"#, Kind(Key::Limits)),
        (r#""limits":[[1,1]]"#, Kind(Key::Limits)),
        (r#""limits":[[1,1,1,1]]"#, Kind(Key::Limits)),
        (r#""limits":[[0,0,1.0]]"#, Kind(Key::Limits)),
        (r#""limits":[[0,0,1]]"#, Asset(Key::Limits)),
        (r#""limits":[[0,1,1]]"#, Asset(Key::Limits)),
        (r#""limits":[[4,1,1]]"#, Asset(Key::Limits)),
        (r#""limits":[[1,1,1],[1,0,1]]"#, Asset(Key::Limits)),
        (r#""limits":[[1,0,1],[1]]"#, Range(Key::Limits)),
        (r#""limits":[[1,11,1]]"#, Range(Key::Limits)),
        (r#""limits":[[1,1,0]]"#, Range(Key::Limits)),
        (r#""limits":[[1,1,11]]"#, Range(Key::Limits)),
    ] {
        assert_eq!(rt; fault_with(rt.alloc(), keys), Some(wanted), "{keys}");
    }
}

#[test]
fn says_what_is_wrong_with_present_and_turnover(rt: HostRuntime) {
    for (keys, wanted) in [
        (r#""present":null"#, Kind(Key::Present)),
        (r#""present":{}"#, Kind(Key::Present)),
        (r#""present":[[1,1,1]]"#, Kind(Key::Present)),
        (r#""present":[[0,-1]]"#, Kind(Key::Present)),
        (r#""present":[[0,10001]]"#, Asset(Key::Present)),
        (r#""present":[[0,1]]"#, Asset(Key::Present)),
        (r#""present":[[4,1]]"#, Asset(Key::Present)),
        (r#""present":[[2,1],[2,1]]"#, Asset(Key::Present)),
        (r#""present":[[2,10001]]"#, Range(Key::Present)),
        (r#""turnover":null"#, Kind(Key::Turnover)),
        (r#""turnover":1e2"#, Kind(Key::Turnover)),
        (r#""turnover":3000001"#, Range(Key::Turnover)),
    ] {
        assert_eq!(rt; fault_with(rt.alloc(), keys), Some(wanted), "{keys}");
    }
}

#[test]
fn says_what_is_wrong_with_weights_nodes_and_workers(rt: HostRuntime) {
    for (keys, wanted) in [
        (r#""weights":null"#, Kind(Key::Weights)),
        (r#""weights":1"#, Kind(Key::Weights)),
        (r#""weights":[]"#, Range(Key::Weights)),
        (r#""weights":[[1,2],[1]]"#, Kind(Key::Weights)),
        (r#""weights":[[0,0]]"#, Range(Key::Weights)),
        (r#""weights":[[1,101]]"#, Range(Key::Weights)),
        (r#""weights":[[3,2]]"#, Range(Key::Weights)),
        (r#""nodes":null"#, Kind(Key::Nodes)),
        (r#""nodes":true"#, Kind(Key::Nodes)),
        (r#""nodes":100001"#, Range(Key::Nodes)),
        (r#""workers":null"#, Kind(Key::Workers)),
        (r#""workers":{}"#, Kind(Key::Workers)),
        (r#""workers":0"#, Range(Key::Workers)),
        (r#""workers":17"#, Range(Key::Workers)),
        (r#""workers":17,"nodes":100001"#, Range(Key::Nodes)),
    ] {
        assert_eq!(rt; fault_with(rt.alloc(), keys), Some(wanted), "{keys}");
    }
}

// Both ends of each range.
#[test]
fn takes_both_ends(rt: HostRuntime) {
    let alloc = rt.alloc();
    let rows = [
        r#""lots":1"#,
        r#""lots":10000"#,
        r#""held":1"#,
        r#""held":3"#,
        r#""held":[1,3]"#,
        r#""held":[3,3]"#,
        r#""least":1"#,
        r#""least":10"#,
        r#""greatest":1"#,
        r#""greatest":10"#,
        r#""limits":[[1,1,10],[3,10,1]]"#,
        r#""present":[[1,0],[3,10000]]"#,
        r#""turnover":0"#,
        r#""turnover":3000000"#,
        r#""weights":[[0,1],[1,1],[0,100],[100,100]]"#,
        r#""nodes":0"#,
        r#""nodes":100000"#,
        r#""workers":1"#,
        r#""workers":16"#,
    ];
    for keys in rows {
        assert!(rt; is_job(alloc, keys), "{keys}");
    }
}

// The key `weights` with this entry and so many entries `[0,1]` behind it.
fn weights_of(alloc: Global, first: &str, more: u32) -> Result<String, Fail> {
    let mut keys = String::from_str(alloc, "\"weights\":[")?;
    keys.push_str(first)?;
    for _ in 0..more {
        keys.push_str(",[0,1]")?;
    }
    keys.push_str("]")?;
    Ok(keys)
}

#[test]
fn counts_the_weights_first(rt: HostRuntime) -> Result<(), Fail> {
    let alloc = rt.alloc();
    let keys = weights_of(alloc, "[1,1]", 100)?;
    assert!(rt; is_job(alloc, keys.as_str()), "101 weights");
    let keys = weights_of(alloc, "[2,1]", 100)?;
    assert_eq!(rt; fault_with(alloc, keys.as_str()), Some(Range(Key::Weights)));
    let keys = weights_of(alloc, "[1]", 100)?;
    assert_eq!(rt; fault_with(alloc, keys.as_str()), Some(Kind(Key::Weights)));
    let keys = weights_of(alloc, "[1]", 101)?;
    assert_eq!(rt; fault_with(alloc, keys.as_str()), Some(Range(Key::Weights)));
    Ok(())
}

// A list at a key in which so many further ones nest.
fn nested(alloc: Global, more: u32) -> Result<String, Fail> {
    let mut keys = String::from_str(alloc, "\"limits\":[")?;
    for _ in 0..more {
        keys.push_str("[")?;
    }
    for _ in 0..more {
        keys.push_str("]")?;
    }
    keys.push_str("]")?;
    Ok(keys)
}

#[test]
fn nests_at_most_127_levels(rt: HostRuntime) -> Result<(), Fail> {
    let alloc = rt.alloc();
    // the object and the list are two levels
    let keys = nested(alloc, 125)?;
    assert_eq!(rt; fault_with(alloc, keys.as_str()), Some(Kind(Key::Limits)));
    let keys = nested(alloc, 126)?;
    assert_eq!(rt; fault_with(alloc, keys.as_str()), Some(NotJson));
    Ok(())
}
