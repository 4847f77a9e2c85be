//! Words that ask for a script by its number.
use crate::{Order, UsageFault, read_words};
use std::alloc::{AllocError, Global};
use std::test::Fail;

/// What words with a number came to.
#[derive(Clone, Copy, Debug, PartialEq, Eq)]
enum Came {
    Make(u32),
    Work(u32),
    Refused(UsageFault),
    Other,
}

use Came::{Make, Refused, Work};

fn words_of(alloc: Global, words: &[&str]) -> Result<Vec<String>, AllocError> {
    let mut all = Vec::new(alloc);
    for word in words {
        all.push(String::from_str(alloc, word)?)?;
    }
    Ok(all)
}

fn read(alloc: Global, words: &[&str]) -> Result<Came, AllocError> {
    let words = words_of(alloc, words)?;
    Ok(match read_words(alloc, &words) {
        Ok(Order::Make { number }) => Make(number),
        Ok(Order::Work { number }) => Work(number),
        Ok(_) => Came::Other,
        Err(fault) => Refused(fault),
    })
}

#[test]
fn numbers_are_read(rt: HostRuntime) -> Result<(), Fail> {
    let missing = UsageFault::Missing { want: 1, have: 0 };
    let cases: [(&[&str], Came); 15] = [
        (&["make", "0"], Make(0)),
        (&["make", "000001"], Make(1)),
        (&["make", "7"], Make(7)),
        (&["work", "123456"], Work(123_456)),
        (&["work", "999999"], Work(999_999)),
        (&["make", "1234567"], Refused(UsageFault::Number)),
        (&["work", "0000001"], Refused(UsageFault::Number)),
        (&["make", "12x"], Refused(UsageFault::Number)),
        (&["make", ""], Refused(UsageFault::Number)),
        (&["make", "+1"], Refused(UsageFault::Number)),
        (&["work", "\u{663}"], Refused(UsageFault::Number)),
        (&["make", "-1"], Refused(UsageFault::Dash { at: 1 })),
        (&["make"], Refused(missing)),
        (&["work", "12x", "1"], Refused(UsageFault::Extra { at: 2 })),
        (&["run", "12"], Came::Other),
    ];
    for (words, came) in cases {
        assert_eq!(rt; read(rt.alloc(), words)?, came, "{words:?}");
    }
    Ok(())
}
