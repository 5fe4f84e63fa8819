//! Words that are taken, and the commands that they ask for.

use crate::tests_refused::read;
use crate::{Command, Kill, KillKind, Numbers, Origin, Word};
use std::test::Fail;

// What a command is to be.
#[derive(Clone, Copy)]
enum Wanted<'a> {
    // Of these numbers.
    Run(Numbers, Option<&'a str>, &'a [Kill]),
    // Of this image.
    RunImage(&'a str, Option<&'a str>, &'a [Kill]),
    Make(u32, u64),
    Check(&'a str),
    Print(&'a str),
    Recover(&'a str, &'a str),
}

// Five numbers.
fn five(segments: u32, tiers: u32, chunks: u32, chunk_words: u32, extra: u32) -> Numbers {
    Numbers {
        segments,
        tiers,
        chunks,
        chunk_words,
        extra,
    }
}

// A kill that counts stores.
fn stores(caller: u32, after: u32) -> Kill {
    Kill {
        caller,
        kind: KillKind::Stores,
        after,
    }
}

// A kill that counts events.
fn events(caller: u32, after: u32) -> Kill {
    Kill {
        caller,
        kind: KillKind::Events,
        after,
    }
}

// Whether an image that is to be saved has this name.
fn is_saved(save: &Option<Word>, name: Option<&str>) -> bool {
    match (save, name) {
        (Some(word), Some(text)) => word.as_str() == text,
        (None, None) => true,
        _ => false,
    }
}

// Whether a command is as it is to be.
fn is_wanted(command: &Command, wanted: Wanted<'_>) -> bool {
    match (command, wanted) {
        (
            Command::Run {
                origin,
                save,
                kills,
            },
            Wanted::Run(numbers, name, wanted),
        ) => match origin {
            Origin::Numbers(n) => *n == numbers
                && is_saved(save, name)
                && kills.as_slice() == wanted,
            Origin::Image(_) => false,
        },
        (
            Command::Run {
                origin,
                save,
                kills,
            },
            Wanted::RunImage(image, name, wanted),
        ) => match origin {
            Origin::Numbers(_) => false,
            Origin::Image(i) => i.as_str() == image
                && is_saved(save, name)
                && kills.as_slice() == wanted,
        },
        (Command::Make { records, seed }, Wanted::Make(n, s)) => *records == n && *seed == s,
        (Command::Check { name }, Wanted::Check(text)) => name.as_str() == text,
        (Command::Print { name }, Wanted::Print(text)) => name.as_str() == text,
        (Command::Recover { name, new }, Wanted::Recover(text, other)) => {
            name.as_str() == text && new.as_str() == other
        }
        _ => false,
    }
}

// The numbers where none are given.
fn usual() -> Numbers {
    five(16, 4, 1024, 8, 48)
}

#[test]
fn runs_are_taken(rt: HostRuntime) -> Result<(), Fail> {
    let alloc = rt.alloc();
    let one = five(1, 1, 64, 4, 0);
    let most = u32::MAX;
    let table: [(&[&str], Wanted<'_>); 20] = [
        (&["run"], Wanted::Run(usual(), None, &[])),
        (&["run", "--geo", "1,1,64,4,0"], Wanted::Run(one, None, &[])),
        (&["run", "--geo=1,1,64,4,0"], Wanted::Run(one, None, &[])),
        (
            &["run", "--geo", "0,0,0,0,0"],
            Wanted::Run(five(0, 0, 0, 0, 0), None, &[]),
        ),
        (
            &[
                "run",
                "--geo=4294967295,4294967295,4294967295,4294967295,4294967295",
            ],
            Wanted::Run(five(most, most, most, most, most), None, &[]),
        ),
        (
            &["run", "--geo", "10,20,30,40,50"],
            Wanted::Run(five(10, 20, 30, 40, 50), None, &[]),
        ),
        (
            &["run", "--image", "old"],
            Wanted::RunImage("old", None, &[]),
        ),
        (&["run", "--image=old"], Wanted::RunImage("old", None, &[])),
        (&["run", "--image=a=b"], Wanted::RunImage("a=b", None, &[])),
        (&["run", "--image==b"], Wanted::RunImage("=b", None, &[])),
        (
            &["run", "--save", "new"],
            Wanted::Run(usual(), Some("new"), &[]),
        ),
        (
            &["run", "--save=new"],
            Wanted::Run(usual(), Some("new"), &[]),
        ),
        (
            &["run", "--save", "new", "--geo=1,1,64,4,0"],
            Wanted::Run(one, Some("new"), &[]),
        ),
        (
            &["run", "--geo=1,1,64,4,0", "--save", "new"],
            Wanted::Run(one, Some("new"), &[]),
        ),
        (
            &["run", "--save=new", "--image", "old"],
            Wanted::RunImage("old", Some("new"), &[]),
        ),
        (
            &["run", "--image", "run", "--save", "run"],
            Wanted::RunImage("run", Some("run"), &[]),
        ),
        (
            &["run", "--image", "a-b", "--save=c-"],
            Wanted::RunImage("a-b", Some("c-"), &[]),
        ),
        (
            &["run", "0:stores:6", "63:events:4294967295"],
            Wanted::Run(usual(), None, &[stores(0, 6), events(63, 4294967295)]),
        ),
        (
            &[
                "run",
                "--save",
                "0:stores:1",
                "5:events:0",
                "4:stores:0",
                "0:events:1",
            ],
            Wanted::Run(
                usual(),
                Some("0:stores:1"),
                &[events(5, 0), stores(4, 0), events(0, 1)],
            ),
        ),
        (
            &["run", "--image=old", "--save", "new", "12:stores:34"],
            Wanted::RunImage("old", Some("new"), &[stores(12, 34)]),
        ),
    ];
    for (texts, wanted) in table {
        let Ok(command) = read(alloc, texts)? else {
            assert!(rt; false, "refused: {texts:?}");
            continue;
        };
        assert!(rt; is_wanted(&command, wanted), "{texts:?}");
    }
    Ok(())
}

#[test]
fn other_commands_are_taken(rt: HostRuntime) -> Result<(), Fail> {
    let alloc = rt.alloc();
    let table: [(&[&str], Wanted<'_>); 10] = [
        (&["make", "0", "0"], Wanted::Make(0, 0)),
        (&["make", "1", "9"], Wanted::Make(1, 9)),
        (
            &["make", "65536", "18446744073709551615"],
            Wanted::Make(65536, u64::MAX),
        ),
        (
            &["make", "1000", "4294967296"],
            Wanted::Make(1000, 4294967296),
        ),
        (&["check", "m"], Wanted::Check("m")),
        (&["check", "check"], Wanted::Check("check")),
        (&["print", "a b"], Wanted::Print("a b")),
        (&["print", "m-1"], Wanted::Print("m-1")),
        (&["recover", "old", "new"], Wanted::Recover("old", "new")),
        (
            &["recover", "same", "same"],
            Wanted::Recover("same", "same"),
        ),
    ];
    for (texts, wanted) in table {
        let Ok(command) = read(alloc, texts)? else {
            assert!(rt; false, "refused: {texts:?}");
            continue;
        };
        assert!(rt; is_wanted(&command, wanted), "{texts:?}");
    }
    Ok(())
}

// Each of the 64 callers may die.
#[test]
fn as_many_kills_as_callers(rt: HostRuntime) -> Result<(), Fail> {
    let alloc = rt.alloc();
    let mut words = vec![in alloc; Word::of(alloc, "run")?]?;
    let mut wanted = Vec::new(alloc);
    for caller in 0u32..64 {
        let text = format!(in alloc; "{caller}:events:{caller}")?;
        words.push(Word::of(alloc, text.as_str())?)?;
        wanted.push(events(caller, caller))?;
    }
    let Ok(command) = crate::read_command(alloc, words.as_slice()) else {
        assert!(rt; false);
        return Ok(());
    };
    assert!(rt; is_wanted(&command, Wanted::Run(usual(), None, wanted.as_slice())));
    Ok(())
}
