use adversary_script::{Noise, Script, ScriptError, ScriptRefusal, read_script};
use plan_reader::read_whole_plan;
use state_codec::StateShape;
use std::alloc::Global;
use std::test::Fail;
use sync_types::Rule;

/// Node 3 is a spare: it has no number, and one byte.
const SPARE: &str = "plan 2\nbase 576\nlevel 3 1 10 spare 1\nend\n";

/// A script without a key of its own: that of 32 zero bytes.
const PLAIN: &[u8] = b"script 1\nfaulty\nstart zero\nrounds 1\nshow 0 1\nend\n";

/// A script for a plan, whose first line has the number 5.
fn read(alloc: Global, plan: &str, text: &[u8]) -> Result<Script, ScriptError> {
    let plan = match read_whole_plan(alloc, plan.as_bytes()) {
        Ok(plan) => plan,
        Err(_) => return Err(ScriptError::NoMemory),
    };
    let shape = StateShape::of(alloc, &plan).map_err(|_| ScriptError::NoMemory)?;
    let text = if text.len() < 100_000 { text } else { &[] };
    read_script(alloc, &plan, &shape, text, 5)
}

/// Scripts that are refused: what stands after the first three lines, and the line and the rule.
const ROWS: [(&str, u64, Rule); 11] = [
    ("start node 1 0000\nstart node 2 0", 9, Rule::Hex),
    ("group left 4 3", 8, Rule::Node),
    ("lie 0 4 3 to 2 2 hex 0", 8, Rule::Hex),
    ("lie 0 4 3 to 007 noise", 8, Rule::Name),
    ("lie 0 4 3 to 0 noise", 8, Rule::Form),
    ("era 2 faulty 1\nlie 0 4 2 to all noise", 9, Rule::Node),
    ("era 2 faulty 1\nlie 0 4 1 to all hex 0", 9, Rule::Hex),
    ("era 2 faulty\nstart node 1 0", 9, Rule::Hex),
    ("group left 1\nera 2 faulty", 9, Rule::Form),
    ("era 2 faulty\nrounds 2\nshow 0 3", 10, Rule::Range),
    ("rounds 3\nshow 3 3\nend\n\n# more\nend", 13, Rule::Form),
];

/// The answer to a script with this text after its first three lines.
fn answer(alloc: Global, text: &str) -> Result<Option<ScriptError>, Fail> {
    let mut script = Vec::new(alloc);
    script.extend_from_slice(b"script 2\nfaulty 3\nstart zero\n")?;
    script.extend_from_slice(text.as_bytes())?;
    Ok(read(alloc, SPARE, &script).err())
}

/// Whether the script of a row is refused by its line and its rule.
fn is_refused(alloc: Global, row: &(&str, u64, Rule)) -> Result<bool, Fail> {
    let (line, rule) = (row.1, row.2);
    let want = ScriptError::Refused(ScriptRefusal { line, rule });
    Ok(answer(alloc, row.0)? == Some(want))
}

#[test]
fn rules_are_tested_in_their_order(rt: HostRuntime) -> Result<(), Fail> {
    for row in &ROWS {
        assert!(rt; is_refused(rt.alloc(), row)?, "at {}", row.0);
    }
    Ok(())
}

/// The digits of the first words of a stream.
fn first_words(alloc: Global) -> Result<Vec<u8>, Fail> {
    let Ok(script) = read(alloc, SPARE, PLAIN) else {
        return Err(Fail::new("a script"));
    };
    let mut noise = Noise::new(&script);
    let mut bytes = [0; 32];
    noise.fill_bytes(0, 0, &mut bytes);
    let mut digits = vec![in alloc; 0; 64]?;
    let _fits = hex::encode_to_slice(&bytes, &mut digits);
    Ok(digits)
}

#[test]
fn words_are_those_of_the_published_stream(rt: HostRuntime) -> Result<(), Fail> {
    let published = b"3e00ef2f895f40d67f5bb8e81f09a5a12c840ec3ce9a7f3b181be188ef711a1e";
    assert!(rt; first_words(rt.alloc())?.as_slice() == published.as_slice());
    Ok(())
}

const TEXTS: [(ScriptError, &str); 2] = [
    (
        ScriptError::Refused(ScriptRefusal {
            line: 6,
            rule: Rule::Faults,
        }),
        "line 6 fails the rule Faults",
    ),
    (ScriptError::NoMemory, "out of memory"),
];

#[test]
fn errors_have_texts(rt: HostRuntime) -> Result<(), Fail> {
    for row in &TEXTS {
        let text = format!(in rt.alloc(); "{}", row.0)?;
        assert!(rt; text.as_str() == row.1, "{text}");
    }
    Ok(())
}
