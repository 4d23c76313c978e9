//! The key by which an entry is found.

use wire_values::Word;

/// A request's key and its caller. The key comes first, since requests differ in their keys far more often than in
/// their callers: where two keys differ, the callers are not compared.
#[derive(Clone, Copy, Debug, PartialEq, Eq, PartialOrd, Ord)]
pub struct ReceiptKey {
    pub key: Word,
    pub caller: Word,
}
