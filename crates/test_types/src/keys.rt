//! Keys of maps and items of sets that are user-defined types.

// nanoserde: bin json ron key
/// The number of a user.
#[derive(PartialEq, Eq, PartialOrd, Ord, Hash, Debug, Drop)]
pub struct UserId(pub u64);

// nanoserde: bin json ron key
/// The name of a hall.
#[derive(PartialEq, Eq, PartialOrd, Ord, Hash, Debug, Drop)]
pub struct HallName(pub String);

// nanoserde: bin json ron key
/// How much someone may do.
#[derive(PartialEq, Eq, PartialOrd, Ord, Hash, Debug, Drop)]
pub enum Role {
    /// To look.
    Guest,
    /// To speak.
    Member,
    /// To change others.
    Moderator,
    /// Everything.
    Owner,
}

// nanoserde: bin json ron key
/// Someone in a hall.
#[derive(PartialEq, Eq, PartialOrd, Ord, Hash, Debug, Drop)]
pub struct Seat(pub HallName, pub u16);

mod derived;
