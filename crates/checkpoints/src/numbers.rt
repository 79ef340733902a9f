// The numbers of the policy, as specs/Numbers.antt has them.

// The lowest level keeps a state every so many steps.
pub const STRIDE: u64 = 4096;

// So many points are a block, and one spacing of the level above.
pub const FAN: u64 = 8;

// The levels below the top one.
pub const LEVELS: u64 = 15;

// The slots of a level.
pub const LEVEL_SLOTS: u64 = 10;

// The points of the top level, which keeps all of them.
pub const TOP_POINTS: u64 = 30;
