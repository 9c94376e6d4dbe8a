//! A small state and a request: a data set of one of three kinds, two places in it and one further
//! on, the unit 1.1 that asks and another, a record at each of the two places or none, one that the
//! other unit may bring back, or one that was withdrawn, or none, one lock or none, what a file
//! holds, where it stands, and the areas that there are.

/// What the data set is.
#[derive(Clone, Copy, PartialEq, Eq)]
pub enum DataSet {
    /// Key-sequenced, with keys of one byte.
    Keyed,
    /// Entry-sequenced.
    Entry,
    /// Relative, of records of three bytes.
    Relative,
}

/// A place: a key, an address or a slot.
#[derive(Clone, Copy, PartialEq, Eq)]
pub enum Key {
    A,
    B,
    /// Past the other two, where no record stands: the key F, the address after two records of two
    /// bytes, or slot 500, in the third area.
    Far,
}

/// Which record a read asks for.
#[derive(Clone, Copy, PartialEq, Eq)]
pub enum Sought {
    Next,
    Equal(Key),
    AtLeast(Key),
}

/// A request. A record begins with its key, where it has room for it, and then has zeros. An add
/// names its slot in a relative data set, and in an entry-sequenced one it goes where the next
/// record goes.
#[derive(Clone, Copy, PartialEq, Eq)]
pub enum Ask {
    Get {
        sought: Sought,
        update: bool,
        keeps: Keeps,
    },
    Point {
        sought: Sought,
    },
    /// POINT to such a place.
    PointOf {
        length: u32,
    },
    /// GET of a place that has this many bytes, which are `A` of a key and else 0.
    GetOf {
        length: u32,
    },
    Add {
        key: Key,
        length: u32,
    },
    /// An add of a record of three bytes with the key A that names a place of this many zeros.
    AddAt {
        length: u32,
    },
    /// The same that names no place.
    AddBare,
    Update {
        key: Key,
        length: u32,
    },
    Erase,
    EndReq,
    Commit,
    Backout,
}

/// The read integrity.
#[derive(Clone, Copy, PartialEq, Eq)]
pub enum Keeps {
    Nothing,
    Consistent,
    Repeatable,
}

/// Whether the request's file can be opened.
#[derive(Clone, Copy, PartialEq, Eq)]
pub enum Name {
    Known,
    Unknown,
    /// Opened by way of an alternate index, where none is built.
    ByPath,
}

/// The one lock.
#[derive(Clone, Copy, PartialEq, Eq)]
pub struct OneLock {
    pub key: Key,
    pub own: bool,
    pub exclusive: bool,
}

/// Where the request's file stands.
#[derive(Clone, Copy, PartialEq, Eq)]
pub enum Stands {
    /// Its deck hasn't used it yet.
    Unused,
    Start,
    At(Key),
    After(Key),
    End,
    Nowhere,
}

/// A state and a request.
#[derive(Clone, Copy, PartialEq, Eq)]
pub struct Small {
    pub data_set: DataSet,
    pub ask: Ask,
    pub has_a: bool,
    pub has_b: bool,
    /// The place of a record that was added and backed out, in an entry-sequenced data set.
    pub withdrawn: Option<Key>,
    /// The areas that the data set has, and those that no part has.
    pub areas: u32,
    pub free: u32,
    pub lock: Option<OneLock>,
    pub held: Option<Key>,
    pub stands: Stands,
    /// The key of a record that the other unit may bring back.
    pub kept: Option<Key>,
    pub name: Name,
    /// Whether a live unit of the utilities changed the catalog.
    pub changing: bool,
    pub stopped: bool,
    /// The bytes of the log in use, of 496.
    pub used: u32,
    /// Whether the log has a before record of the place that is changed.
    pub logged: bool,
    /// Whether it has one of the unit.
    pub live: bool,
}

/// A request on an empty volume.
pub fn small_case(ask: Ask) -> Small {
    Small {
        data_set: DataSet::Keyed,
        ask,
        has_a: false,
        has_b: false,
        withdrawn: None,
        areas: 1,
        free: 2,
        lock: None,
        held: None,
        stands: Stands::Unused,
        kept: None,
        name: Name::Known,
        changing: false,
        stopped: false,
        used: 0,
        logged: false,
        live: false,
    }
}

fn key_of(n: u32) -> Key {
    if n % 2 == 0 { Key::A } else { Key::B }
}

fn keeps_of(n: u32) -> Keeps {
    match n % 3 {
        0 => Keeps::Nothing,
        1 => Keeps::Consistent,
        _ => Keeps::Repeatable,
    }
}

/// Where the next record of an entry-sequenced data set goes: after the last one, standing or
/// withdrawn. An address before that of a record without a record is of a withdrawn one.
pub fn next_place(case: &Small) -> Key {
    if case.has_b || case.withdrawn == Some(Key::B) {
        Key::Far
    } else if case.has_a || case.withdrawn == Some(Key::A) {
        Key::B
    } else {
        Key::A
    }
}

/// How many requests there are.
const ASKS: u32 = 64;

/// The request with a number: 12 direct reads, 8 adds and 9 updates of which some have a length
/// that isn't valid, those that don't read, those that name a place of another form, and those that
/// search.
fn ask_of(n: u32) -> Ask {
    match n % ASKS {
        0..=11 => Ask::Get {
            sought: Sought::Equal(key_of(n)),
            update: n / 2 % 2 == 1,
            keeps: keeps_of(n / 4),
        },
        12..=19 => Ask::Add {
            key: key_of(n),
            length: n / 2 % 5,
        },
        20..=28 => Ask::Update {
            key: key_of(n),
            length: n / 2 % 5,
        },
        29 => Ask::Erase,
        30 => Ask::EndReq,
        31 => Ask::Commit,
        32 => Ask::Backout,
        33..=40 => form_of(n),
        other => search_of(other),
    }
}

/// A request that names a place of another form, or none, or one that is far.
fn form_of(n: u32) -> Ask {
    match n {
        33 => Ask::GetOf { length: 0 },
        34 => Ask::GetOf { length: 2 },
        35 => Ask::GetOf { length: 4 },
        36 => Ask::PointOf { length: 4 },
        37 => Ask::AddAt { length: 3 },
        38 => Ask::AddAt { length: 4 },
        39 => Ask::AddBare,
        _ => Ask::Add {
            key: Key::Far,
            length: 3,
        },
    }
}

/// A request that searches: 6 sequential reads, 12 reads of a place at least the one given, and 5
/// POINTs.
fn search_of(n: u32) -> Ask {
    match n {
        41..=46 => Ask::Get {
            sought: Sought::Next,
            update: n % 2 == 1,
            keeps: keeps_of(n / 2),
        },
        47..=58 => Ask::Get {
            sought: Sought::AtLeast(key_of(n)),
            update: n / 2 % 2 == 1,
            keeps: keeps_of(n / 4),
        },
        59..=60 => Ask::Point {
            sought: Sought::Equal(key_of(n)),
        },
        61..=62 => Ask::Point {
            sought: Sought::AtLeast(key_of(n)),
        },
        _ => Ask::Point {
            sought: Sought::Next,
        },
    }
}

fn lock_of(n: u32) -> Option<OneLock> {
    if n % 9 == 8 {
        return None;
    }
    Some(OneLock {
        key: key_of(n % 9),
        own: n % 9 / 2 % 2 == 1,
        exclusive: n % 9 / 4 == 1,
    })
}

fn stands_of(n: u32) -> Stands {
    match n % 8 {
        0 => Stands::Unused,
        1 => Stands::Start,
        2 | 3 => Stands::At(key_of(n)),
        4 | 5 => Stands::After(key_of(n)),
        6 => Stands::End,
        _ => Stands::Nowhere,
    }
}

/// One of the two keys, or none.
fn some_key(n: u32) -> Option<Key> {
    match n % 3 {
        0 => None,
        1 => Some(Key::A),
        _ => Some(Key::B),
    }
}

/// Where the log stands: with ample room, and about its end.
fn used_of(n: u32) -> u32 {
    match n % 6 {
        0 => 0,
        rest => 462 + rest,
    }
}

/// The state of the volume beside its records, locks and log.
fn with_volume(case: Small, n: u32) -> Small {
    let mut case = case;
    match n % 6 {
        0 | 1 => {}
        2 => case.name = Name::Unknown,
        3 => case.name = Name::ByPath,
        4 => case.changing = true,
        _ => case.stopped = true,
    }
    if n % 6 == 1 {
        case.stopped = true;
        case.name = Name::Unknown;
    }
    case
}

/// The kind of the data set, and for places that are numbers the areas that there are.
fn with_kind(case: Small, n: u32) -> Small {
    match n % 7 {
        0 => case,
        1 => with_areas(case, DataSet::Entry, 1, 2),
        2 => with_areas(case, DataSet::Entry, 0, 0),
        3 => with_areas(case, DataSet::Entry, 0, 1),
        4 => with_areas(case, DataSet::Relative, 1, 2),
        5 => with_areas(case, DataSet::Relative, 0, 0),
        _ => with_areas(case, DataSet::Relative, 1, 1),
    }
}

fn with_areas(case: Small, data_set: DataSet, areas: u32, free: u32) -> Small {
    let mut case = case;
    case.data_set = data_set;
    case.areas = areas;
    case.free = free;
    case
}

/// How many small states with a request there are. Where a file stands and what may be brought
/// back, which reads alone look at, goes with where the log stands, which changes alone look at.
pub const SMALL: u32 = ASKS * 4 * 9 * 3 * 6 * 6 * 4 * 7;

/// The one with a number.
pub fn small_of(number: u32) -> Small {
    let n = number / ASKS;
    let mut case = with_kind(small_case(ask_of(number % ASKS)), n / 15_552);
    case.has_a = n % 2 == 1;
    case.has_b = n / 2 % 2 == 1;
    case.lock = lock_of(n / 4);
    case.held = some_key(n / 36);
    case.stands = stands_of(n / 108);
    if case.data_set == DataSet::Entry {
        case.withdrawn = some_key(n / 864);
    } else {
        case.kept = some_key(n / 864);
    }
    case.used = used_of(n / 108);
    case.logged = n / 648 % 2 == 1;
    case.live = n / 1296 % 2 == 1;
    with_volume(case, n / 2592)
}
