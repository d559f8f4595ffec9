// What no clause says: that scripts are read, with ample memory, and the text of a run.
use media_script::ScriptError;
use pace_core::{are_short, pace_run};
use pace_script::{log_text, read_pace_script, write_pace_log};
use std::alloc::Global;
use std::test::Fail;

// The text of the run of a script.
fn played(alloc: Global, script: &str) -> Result<String, Fail> {
    let (rate, calls) = match read_pace_script(alloc, script.as_bytes()) {
        Ok(read) => read,
        Err(_) => return Err(Fail::from("not read")),
    };
    if !are_short(calls.as_slice()) {
        return Err(Fail::from("too long"));
    }
    match pace_run(alloc, rate, calls.as_slice()) {
        Ok(log) => Ok(write_pace_log(alloc, &log)?),
        Err(fault) => Ok(log_text(alloc, &fault.sofar)?),
    }
}

// Scripts, and the text of each.
static PLAYED: [(&str, &str); 2] = [
    (
        "pace 1\nrate 1000000\ntimeout 1 v:2:2000:0\npoll\nsend 1 1000\npoll\ntimeout 1 v:1:1000:0\npoll\nsend 1 1000\nend\n",
        "chose v\nsent 8000 debt=8000000000000 rate=1000000\nnone 1001\nchose v\nsent 8000 debt=16000000000000 rate=1000000\nend\n",
    ),
    (
        "\n# padding\npace 1\n\nrate 1000000\npadding 800000\npoll\ntimeout 1ms v:0:0:0:p w:0:0:0\nend\n#\n",
        "none -\npad v 500\nend\n",
    ),
];

#[test]
fn surface_ample(rt: HostRuntime) -> Result<(), Fail> {
    for (script, text) in &PLAYED {
        let found = played(rt.alloc(), script)?;
        assert!(rt; found.as_str() == *text, "at {script}");
    }
    Ok(())
}

// Scripts, and the first line of each that is wrong.
static WRONG: [(&str, u64); 6] = [
    ("pace 1", 1),
    ("pace 1\npoll\n", 2),
    ("pace 1\nrate 1\n", 3),
    ("pace 1\nrate 1\nend\npoll\n", 4),
    ("pace 1\nrate 1\ntimeout 1 v:0:0:0:q\nend\n", 3),
    ("pace 1\nrate 1\nsend 1 2001\nend\n", 3),
];

fn is_wrong(alloc: Global, script: &str, line: u64) -> bool {
    read_pace_script(alloc, script.as_bytes()).err() == Some(ScriptError::Syntax(line))
}

#[test]
fn wrong_lines(rt: HostRuntime) {
    for (script, line) in &WRONG {
        assert!(rt; is_wrong(rt.alloc(), script, *line), "at {script}");
    }
}
