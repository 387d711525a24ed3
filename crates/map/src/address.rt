// Addresses: a cylinder and a sector.
ghost use Rattle.std.specs.Prelude.{◌≡◌, ◌+◌, ◌*◌, ◌<◌};
ghost use Rattle.map.specs.Addresses.{cylinder_of, sector_of, root_place, data_block};

/// The cylinder and the sector of an address.
pub fn split(a: u32) -> (u32, u32)
    ensures value { result ≡ (cylinder_of a, sector_of a) }
    ensures joins { 32 * result.0 + result.1 ≡ a }
    ensures sector { result.1 < 32 }
{
    (a / 32, a % 32)
}

/// The address of a sector of a cylinder.
pub fn join(cylinder: u8, sector: u8) -> u16
    ensures { result ≡ 32 * cylinder + sector }
{
    32 * u16::from(cylinder) + u16::from(sector)
}

/// Whether an address is a root place: sectors 1 to 4.
pub fn is_root_place(a: u32) -> bool
    ensures { result ≡ root_place a }
{
    (1..=4).contains(&(a % 32))
}

/// Whether an address is a data block: sectors 5 to 31.
pub fn is_data_block(a: u32) -> bool
    ensures { result ≡ data_block a }
{
    a % 32 >= 5
}
