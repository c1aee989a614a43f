// What a whole body says, by the layout of its request.

// Request 4.
#[derive(Clone, Copy)]
pub struct QueryFields {
    pub handle: u32,
    pub class: u32,
    pub capacity: u32,
}

// Request 7.
#[derive(Clone, Copy)]
pub struct ScopeFields {
    pub handle: u32,
    pub value: u32,
}

// Request 9; `kind` is the type.
#[derive(Clone, Copy)]
pub struct DuplicateFields {
    pub handle: u32,
    pub kind: u32,
    pub level: u32,
    pub mask: u32,
}

// Request 16.
#[derive(Clone, Copy)]
pub struct LinkFields {
    pub elevated: u32,
    pub filtered: u32,
    pub session: u64,
}

// Requests 5 and 6: count entries from a place on.
#[derive(Clone, Copy)]
pub struct EntriesFields {
    pub handle: u32,
    pub count: u32,
    pub at: usize,
}

// Request 8: size bytes from a place on.
#[derive(Clone, Copy)]
pub struct DefaultsFields {
    pub handle: u32,
    pub owner: u32,
    pub group: u32,
    pub flag: u32,
    pub size: u32,
    pub at: usize,
}

// Requests 3 and 14: the user, by its number or by the place of its packed SID, and count groups from a place on.
#[derive(Clone, Copy)]
pub struct CreateFields<U> {
    pub user: U,
    pub session: u64,
    pub integrity: u32,
    pub present: u64,
    pub by_default: u64,
    pub count: u32,
    pub at: usize,
}

// Requests 10 and 15: the indexes to deny and the restricting SIDs, each from a place on.
#[derive(Clone, Copy)]
pub struct RestrictFields {
    pub handle: u32,
    pub mark: u32,
    pub removed: u64,
    pub deny_count: u32,
    pub deny_at: usize,
    pub sid_count: u32,
    pub sid_at: usize,
}
