//! Where the sections of an image stand.

/// How many entries the sections of an image have, and at which bytes they begin.
///
/// All numbers are little endian, and signed ones two's complement. Each section begins where the one before ended, and is padded with zero
/// bytes to a multiple of 8.
///
/// ```text
/// section     begins at    entry                                  count
/// 0 header    0            u32, 18 words, as below                1
/// 1 slots     72           u8                                     slots
/// 2 places    places_at    u32 j, i32 n1, i32 n2                  places
/// 3 times     times_at     u64 femtoseconds                       times
/// 4 ratios    ratios_at    u32 top, u32 bottom                    ratios
/// 5 kinds     kinds_at     u32 phase, u32 kind, u32 a, u32 b      states
/// 6 members   members_at   u64; bit i of word k is place 64k+i    states * words
/// 7 rows      rows_at      u16 state                              states * width
///
/// header   +0             +4            +8          +12
///      0   WSYN           1, version    length      slots
///     16   places         time cuts     ratio cuts  states
///     32   degrees        kept edges    cam1 early  cam1 late
///     48   cam2 early     cam2 late     rpm low     rpm high
///     64   ratio's top    its bottom
///
/// kept edges   bits 0 and 1 crank, 2 and 3 first cam, 4 and 5 second cam: 1 rising, 2 falling, 3 both
/// kind         0 dead (a and b 0), 1 at crank edge a (b 0), 2 open between the places a and b
/// row          times + 1 time classes, 2 * ratios + 1 ratio classes, 26 shapes
/// ```
///
/// Early and late are in millidegrees. A set has `words` words, and a row `width` entries.
#[derive(Clone, Copy, Debug)]
pub struct Sections {
    pub slots: u32,
    pub places: u32,
    pub times: u32,
    pub ratios: u32,
    pub states: u32,
    pub words: u32,
    pub width: u32,
    pub places_at: usize,
    pub times_at: usize,
    pub ratios_at: usize,
    pub kinds_at: usize,
    pub members_at: usize,
    pub rows_at: usize,
}
