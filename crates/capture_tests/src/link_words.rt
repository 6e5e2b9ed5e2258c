//! The words of each link, and the bytes that name it in a journal (`docs/USAGE.md`,
//! `docs/JOURNAL.md`).
use command_ends::{Profile, Proto, Usage, link_of, link_word, read_dir, read_link};
use link_format::Dir;
use sequence_journal::LinkId;
use std::test::Fail;

struct Row {
    word: &'static str,
    proto: Proto,
    profile: Profile,
    label: u8,
    delay: u8,
}

const ROWS: [Row; 4] = [
    Row {
        word: "rtu",
        proto: Proto::Rtu,
        profile: Profile::Y18,
        label: 1,
        delay: 18,
    },
    Row {
        word: "dnp3",
        proto: Proto::Dnp3,
        profile: Profile::Y18,
        label: 2,
        delay: 18,
    },
    Row {
        word: "rtu24",
        proto: Proto::Rtu,
        profile: Profile::Y24,
        label: 1,
        delay: 24,
    },
    Row {
        word: "dnp24",
        proto: Proto::Dnp3,
        profile: Profile::Y24,
        label: 2,
        delay: 24,
    },
];

fn is_link_of(row: &Row) -> bool {
    let LinkId {
        label,
        dir,
        profile,
    } = link_of(row.proto, row.profile, Dir::Ba);
    label == row.label && dir == 1 && profile == row.delay
}

#[test]
fn each_word_names_its_link(rt: HostRuntime) -> Result<(), Fail> {
    for row in &ROWS {
        assert_eq!(rt; read_link(row.word), Ok((row.proto, row.profile)));
        assert_eq!(rt; link_word(row.proto, row.profile), row.word.as_bytes());
        assert!(rt; is_link_of(row));
    }
    Ok(())
}

#[test]
fn other_words_are_refused(rt: HostRuntime) -> Result<(), Fail> {
    for word in ["", "RTU", "rtu2", "rtu244", "dnp"] {
        assert_eq!(rt; read_link(word), Err(Usage));
    }
    assert_eq!(rt; read_dir("ab"), Ok(Dir::Ab));
    assert_eq!(rt; read_dir("ba"), Ok(Dir::Ba));
    assert_eq!(rt; read_dir("aba"), Err(Usage));
    Ok(())
}
