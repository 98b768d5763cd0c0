//! The change of a band's resolution in time and frequency (RFC 6716, section 4.3.4.5): below 0 finer in time, above 0
//! finer in frequency, by so many halvings.
ghost use Rattle.std.specs.Prelude.{◌≡◌, ◌≤◌};
ghost use Rattle.celt_tables.specs.Tables.{change_of};

/// Index order: the size of the frame; then no transient and a transient, select 0 and 1, flag 0 and 1.
pub const CHANGES: [[i32; 8]; 4] = [
    [0, -1, 0, -1, 0, -1, 0, -1],
    [0, -1, 0, -2, 1, 0, 1, -1],
    [0, -2, 0, -3, 2, 0, 1, -1],
    [0, -2, 0, -3, 3, 0, 1, -1],
];

/// The change that a band's flag and the frame's select name.
pub fn tf_of(lm: u8, transient: bool, select: bool, flag: bool) -> i32
    requires { lm ≤ 3 }
    ensures { result ≡ change_of lm transient select flag }
{
    let place = 4 * usize::from(transient) + 2 * usize::from(select) + usize::from(flag);
    CHANGES[usize::from(lm)][place]
}
