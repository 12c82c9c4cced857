// What stays from one line to the next.
use unit::Unit;

// Why a line is answered without a call.
#[derive(Clone, Copy)]
pub(crate) enum NoCall {
    Unknown,
    NoUnit,
}

// The unit, where one was installed, and the store, of which so many bytes are lent. The output is no field: tried, but the borrow check has no
// rule for a part of the store, behind two `&mut`s, lent beside another field.
#[derive(Drop)]
pub(crate) struct Progress<'a> {
    pub unit: Option<Unit>,
    pub store: &'a mut [u8],
    pub lent: usize,
}

impl<'a> Progress<'a> {
    // 'before `store` the store is empty'.
    pub(crate) fn new(store: &'a mut [u8]) -> Progress<'a> {
        Progress {
            unit: None,
            store,
            lent: 0,
        }
    }
}
