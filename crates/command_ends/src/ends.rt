//! What a run of the program is given, as one value.

/// The ends of a run: where its key and its input come from, the two sinks to which it writes, and
/// the disk of its journal. A function is given them by value, and gives them to others in the same
/// way.
#[derive(Drop)]
pub struct Ends<'a, K, S, O, L, D> {
    /// The text of the key.
    pub key: &'a mut K,
    /// A recorded line, or two.
    pub input: &'a mut S,
    /// The output that was asked for goes here.
    pub out: &'a mut O,
    /// Notes and fault lines go here.
    pub log: &'a mut L,
    /// The slots of the journal.
    pub disk: &'a mut D,
}
