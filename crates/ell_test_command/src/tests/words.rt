//! Words that were packed by hand, the nodes of a card, and where its words are.
use ell_layout::{Field, table_size};
use ell_word::{
    INF1, INF2, Link, NUMBER_MAX, State, Update, card_of, child_word, internal_of, is_internal,
    left_leaf_of, pack, right_leaf_of, unpack,
};

const WORDS: [(u64, State, u64); 6] = [
    (3, State::Clean, 0),
    (4, State::IFlag, 1),
    (10, State::Mark, 2),
    (13, State::DFlag, 3),
    (274_877_906_943, State::Clean, 68_719_476_735),
    (
        18_446_744_073_709_551_615,
        State::Clean,
        4_611_686_018_427_387_903,
    ),
];

#[test]
fn words_are_packed(rt: HostRuntime) {
    for (word, state, card) in &WORDS {
        let update = Update {
            state: *state,
            card: *card,
        };
        let is_so = *card <= NUMBER_MAX && pack(update) == *word;
        assert!(rt; is_so && unpack(*word) == update, "word {word}");
    }
}

#[test]
fn child_words_are_linked(rt: HostRuntime) {
    let least = Link { node: 0, tag: 1 };
    let greatest = Link {
        node: 274_877_906_943,
        tag: 67_108_863,
    };
    assert!(rt; least.word() == 274_877_906_944 && Link::of(274_877_906_944) == least);
    assert!(rt; greatest.word() == u64::MAX && Link::of(u64::MAX) == greatest);
}

#[test]
fn a_child_word_has_the_low_bits_of_its_node(rt: HostRuntime) {
    let greatest = right_leaf_of(NUMBER_MAX);
    assert!(rt; child_word(0) == 0 && child_word(18) == 18);
    assert!(rt; child_word(274_877_906_944) == 0 && child_word(274_877_906_962) == 18);
    assert!(rt; greatest == 18_446_744_073_709_551_614 && child_word(greatest) == 274_877_906_942);
}

#[test]
fn a_card_has_a_node_and_two_leaves(rt: HostRuntime) {
    assert!(rt; left_leaf_of(4) == 17 && right_leaf_of(4) == 18);
    assert!(rt; card_of(18) == 4 && !is_internal(18) && is_internal(internal_of(4)));
    assert!(rt; INF1 == u64::MAX - 1 && INF2 == u64::MAX);
}

#[test]
fn a_card_has_four_words_in_each_part_of_its_group(rt: HostRuntime) {
    let places = [
        (Field::Key.address(0), 6),
        (Field::Update.address(2), 17),
        (Field::RightLeafKey.address(0), 263),
        (Field::RightValue.address(63), 517),
        (Field::Gp.address(0), 518),
        (Field::Was.address(63), 773),
        (Field::Key.address(64), 774),
        (Field::Gp.address(65), 1290),
        (table_size(2), 530),
        (table_size(64), 1290),
    ];
    for row in 0..10 {
        assert!(rt; places[row].0 == places[row].1, "row {row}");
    }
}
