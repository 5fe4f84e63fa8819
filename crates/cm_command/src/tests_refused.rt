//! Words that are refused.

use crate::{Command, CommandStop, Word, read_command};
use std::alloc::Global;
use std::test::Fail;

// What is read of the words of these texts.
pub(crate) fn read(alloc: Global, texts: &[&str]) -> Result<Result<Command, CommandStop>, Fail> {
    let mut words = Vec::new(alloc);
    for text in texts {
        words.push(Word::of(alloc, text)?)?;
    }
    Ok(read_command(alloc, words.as_slice()))
}

// Whether words are outside the grammar.
fn is_usage(outcome: &Result<Command, CommandStop>) -> bool {
    match outcome {
        Ok(_) => false,
        Err(stop) => *stop == CommandStop::Usage,
    }
}

#[test]
fn words_are_texts(rt: HostRuntime) -> Result<(), Fail> {
    let word = Word::of(rt.alloc(), "--geo=1,1,64,4,0")?;
    assert!(rt; word.as_str() == "--geo=1,1,64,4,0");
    Ok(())
}

#[test]
fn other_runs_are_refused(rt: HostRuntime) -> Result<(), Fail> {
    let alloc = rt.alloc();
    let table: [&[&str]; 58] = [
        // No command, or none of this grammar.
        &[],
        &[""],
        &["Run"],
        &["runs"],
        &["frob", "0:stores:1"],
        &["--geo", "1,1,64,4,0", "run"],
        // Words that clap alone would take.
        &["run", "--"],
        &["run", "--", "0:stores:1"],
        &["run", "-h"],
        &["run", "--help"],
        &["run", "--version"],
        &["--help"],
        // Options: names and values.
        &["run", ""],
        &["run", "-"],
        &["run", "--ge", "1,1,64,4,0"],
        &["run", "-geo", "1,1,64,4,0"],
        &["run", "geo", "1,1,64,4,0"],
        &["run", "--Geo", "1,1,64,4,0"],
        &["run", "--geo"],
        &["run", "--geo="],
        &["run", "--geo", ""],
        &["run", "--image="],
        &["run", "--image", ""],
        &["run", "--image", "-old"],
        &["run", "--image=-old"],
        &["run", "--save"],
        &["run", "--save", "--geo=1,1,64,4,0"],
        &["run", "--save=-"],
        // Options given twice, or against each other.
        &["run", "--geo", "1,1,64,4,0", "--geo", "1,1,64,4,0"],
        &["run", "--geo=1,1,64,4,0", "--geo=1,1,64,4,0"],
        &["run", "--save", "a", "--save=a"],
        &["run", "--image=a", "--image", "a"],
        &["run", "--geo", "1,1,64,4,0", "--image", "old"],
        &["run", "--image=old", "--save=new", "--geo=1,1,64,4,0"],
        // Numbers.
        &["run", "--geo", "1,1,64,4"],
        &["run", "--geo", "1,1,64,4,"],
        &["run", "--geo", "1,1,64,4,0,0"],
        &["run", "--geo", "1,1,64,4,00"],
        &["run", "--geo", "01,1,64,4,0"],
        &["run", "--geo", "+1,1,64,4,0"],
        &["run", "--geo", "1, 1,64,4,0"],
        &["run", "--geo", "1,1,64,4,0 "],
        &["run", "--geo", "1,1,64,4,4294967296"],
        &["run", "--geo", "0x1,1,64,4,0"],
        // Kills.
        &["run", "64:stores:1"],
        &["run", "00:stores:1"],
        &["run", "0:stores:01"],
        &["run", "0:stores:4294967296"],
        &["run", "0:stores"],
        &["run", "0:stores:1:"],
        &["run", "0:deaths:1"],
        &["run", "0:Stores:1"],
        &["run", ":stores:1"],
        &["run", "0:stores:+1"],
        &["run", "0:stores:1", "0:events:2"],
        &["run", "3:stores:1", "4:stores:1", "3:stores:1"],
        // Options behind kills.
        &["run", "0:stores:1", "--save", "new"],
        &["run", "0:stores:1", "--geo=1,1,64,4,0"],
    ];
    for texts in table {
        assert!(rt; is_usage(&read(alloc, texts)?), "{texts:?}");
    }
    Ok(())
}

#[test]
fn other_words_are_refused(rt: HostRuntime) -> Result<(), Fail> {
    let alloc = rt.alloc();
    let table: [&[&str]; 32] = [
        &["make"],
        &["make", "1"],
        &["make", "1", "1", "1"],
        &["make", "65537", "1"],
        &["make", "4294967296", "1"],
        &["make", "1", "18446744073709551616"],
        &["make", "01", "1"],
        &["make", "1", "00"],
        &["make", "1", "-1"],
        &["make", "+1", "1"],
        &["make", "1", ""],
        &["make", "", "1"],
        &["make", "1", "0x1"],
        &["make", "--save=a", "1", "1"],
        &["check"],
        &["check", ""],
        &["check", "-m"],
        &["check", "--"],
        &["check", "--", "m"],
        &["check", "--help"],
        &["check", "m", "m"],
        &["print"],
        &["print", "-h"],
        &["print", "m", "m"],
        &["print", "--image", "m"],
        &["print", "--image=m"],
        &["recover", "old"],
        &["recover", "old", "new", "other"],
        &["recover", "-old", "new"],
        &["recover", "old", "-new"],
        &["recover", "old", ""],
        &["drill", "1", "1"],
    ];
    for texts in table {
        assert!(rt; is_usage(&read(alloc, texts)?), "{texts:?}");
    }
    Ok(())
}
