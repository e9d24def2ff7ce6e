use mu_top::{Command, WordList, read_words};
use std::test::Fail;

fn is_word(words: &WordList, place: usize, word: &[u8]) -> bool {
    match words.word(place) {
        Some(octets) => octets == word,
        None => false,
    }
}

fn is_unknown(word: &str) -> bool {
    let mut words = WordList::new();
    words.add(word);
    read_words(&words).is_none()
}

#[test]
fn commands_are_read(rt: HostRuntime) {
    let mut words = WordList::new();
    assert_eq!(rt; read_words(&words), None);
    words.add("replay");
    assert_eq!(rt; read_words(&words), Some(Command::Replay));
    words.add("seed=1");
    assert_eq!(rt; read_words(&words), None);
    assert!(rt; is_word(&words, 0, b"replay"));
    assert!(rt; is_word(&words, 1, b"seed=1"));
    assert_eq!(rt; words.word(2), None);
    assert!(rt; is_unknown(""));
    assert!(rt; is_unknown("Replay"));
    assert!(rt; is_unknown("replay "));
    assert!(rt; is_unknown("repla"));
    assert!(rt; is_unknown("rerun"));
}

#[test]
fn a_list_has_at_most_32_words(rt: HostRuntime) {
    let mut words = WordList::new();
    for _ in 0..32 {
        words.add("replay");
    }
    assert!(rt; is_word(&words, 31, b"replay"));
    words.add("");
    assert_eq!(rt; words.word(0), None);
    assert_eq!(rt; read_words(&words), None);
    words.add("replay");
    assert_eq!(rt; read_words(&words), None);
}

#[test]
fn a_list_has_at_most_8192_octets(rt: HostRuntime) -> Result<(), Fail> {
    let mut long = String::new(rt.alloc());
    for _ in 0..8185 {
        long.push('a')?;
    }
    let mut words = WordList::new();
    words.add("replay");
    words.add(long.as_str());
    words.add("b");
    assert!(rt; is_word(&words, 2, b"b"));
    words.add("c");
    assert_eq!(rt; words.word(0), None);
    long.push_str("aaaaaaaa")?;
    let mut words = WordList::new();
    words.add(long.as_str());
    assert_eq!(rt; words.word(0), None);
    Ok(())
}
