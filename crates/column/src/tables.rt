// Planes over the 256 subsets of eight relations, 32 bytes each (FORMAT 3.2).
ghost use Rattle.std.specs.Prelude.{◌≡◌, ◌<◌, ◌≤◌};
ghost use Rattle.bits.specs.Tab.{tab};
ghost use Rattle.column.specs.Tables.{member_byte, subset_byte};

// The membership maps (FORMAT 3.10): bit s of map r stands where s has relation r.
const MEMBERS: [[u8; 32]; 8] = [
    [170; 32],
    [204; 32],
    [240; 32],
    [
        0, 255, 0, 255, 0, 255, 0, 255, 0, 255, 0, 255, 0, 255, 0, 255, 0, 255, 0, 255, 0, 255, 0,
        255, 0, 255, 0, 255, 0, 255, 0, 255,
    ],
    [
        0, 0, 255, 255, 0, 0, 255, 255, 0, 0, 255, 255, 0, 0, 255, 255, 0, 0, 255, 255, 0, 0, 255,
        255, 0, 0, 255, 255, 0, 0, 255, 255,
    ],
    [
        0, 0, 0, 0, 255, 255, 255, 255, 0, 0, 0, 0, 255, 255, 255, 255, 0, 0, 0, 0, 255, 255, 255,
        255, 0, 0, 0, 0, 255, 255, 255, 255,
    ],
    [
        0, 0, 0, 0, 0, 0, 0, 0, 255, 255, 255, 255, 255, 255, 255, 255, 0, 0, 0, 0, 0, 0, 0, 0,
        255, 255, 255, 255, 255, 255, 255, 255,
    ],
    [
        0, 0, 0, 0, 0, 0, 0, 0, 0, 0, 0, 0, 0, 0, 0, 0, 255, 255, 255, 255, 255, 255, 255, 255,
        255, 255, 255, 255, 255, 255, 255, 255,
    ],
];

// The membership map of relation r (FORMAT 3.10).
pub fn member_map(r: u8) -> [u8; 32]
    requires { r < 8 }
    ensures { result ≡ tab 32 (member_byte r) }
{
    MEMBERS[r as usize]
}

// Byte j of the plane of the subsets, of which there are `count`: bit s stands where s is below it (FORMAT 3.11).
pub fn subset_byte(count: usize, j: u8) -> u8
    requires { (count ≤ 256) × (j < 32) }
    ensures { result ≡ subset_byte count j }
{
    let whole = (count / 8) as u8;
    let partial = (1u8 << (count % 8)) - 1;
    if j < whole {
        return 255;
    }
    if j == whole {
        return partial;
    }
    0
}
