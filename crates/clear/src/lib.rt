// Sectors that recovery zeroes, under an allowance.
#![tactic(auto)]

ghost use Rattle.std.specs.Prelude.{◌≡◌, ◌||◌, ◌++◌, ◌*◌, ◌≤◌, ◌<◌, length, take};
ghost use Rattle.geometry.specs.Geometry.{sector_bytes};
ghost use Rattle.layout.specs.Bounded.{count_below};
ghost use Rattle.volume.specs.Tables.{sector_at, bit_at};
ghost use Rattle.volume.specs.Store.{applied, stores_below};
ghost use Rattle.volume.specs.Format.{blank_store};
ghost use Rattle.volume.specs.Recover.{park_sector_cleared, is_blank};
ghost use Rattle.power.specs.Power.{powered};

// Zeros over the marked sectors, ascending: each sector is looked at.
fn clear_each(image: &mut [u8], n: u32, above: &[u8], allowance: u32) -> Option<u32>
    requires n_in_bounds { sector_bytes * n ≤ length image.old }
    requires n_bound { n ≤ 8 * length above.now }
    ensures { (result ≡ powered (count_below (bit_at above.now) n) allowance) × (sector_at image.new ≡ applied (take allowance (stores_below (bit_at above.now) blank_store n)) (sector_at image.old)) }
{
    let mut left = allowance;
    for k in 0..n {
        if !bits::is_set(above, k as usize) {
            continue;
        }
        left = left.checked_sub(1)?;
        images::blank_sector(image, k as usize);
    }
    Some(left)
}

// The same; where none is marked, as after most plugs, that is seen at once.
fn clear_above(image: &mut [u8], n: u32, above: &[u8], allowance: u32) -> Option<u32>
    requires n_in_bounds { sector_bytes * n ≤ length image.old }
    requires n_bound { n ≤ 8 * length above.now }
    ensures { (result ≡ powered (count_below (bit_at above.now) n) allowance) × (sector_at image.new ≡ applied (take allowance (stores_below (bit_at above.now) blank_store n)) (sector_at image.old)) }
{
    if blocks::is_blank(above) {
        return Some(allowance);
    }
    clear_each(image, n, above, allowance)
}

// Zeros over sector 0, unless that is done already.
pub fn clear_park(image: &mut [u8], done: bool, allowance: u32) -> Option<u32>
    requires { sector_bytes ≤ length image.old }
    ensures { (result ≡ powered (length (park_sector_cleared done)) allowance) × (sector_at image.new ≡ applied (take allowance (park_sector_cleared done)) (sector_at image.old)) }
{
    if done {
        return Some(allowance);
    }
    let left = allowance.checked_sub(1)?;
    images::blank_sector(image, 0);
    Some(left)
}

// Zeros over the uncommitted sectors, ascending, and finally over sector 0 unless it is zero by then.
pub fn clear_all(image: &mut [u8], n: u32, above: &[u8], allowance: u32) -> Option<u32>
    requires le_n { 1 ≤ n }
    requires image_len { length image.old ≡ sector_bytes * n }
    requires n_bound { n ≤ 8 * length above.now }
    ensures { (result ≡ powered (length (stores_below (bit_at above.now) blank_store n ++ park_sector_cleared (is_blank (sector_at image.old 0) || bit_at above.now 0))) allowance) × (sector_at image.new ≡ applied (take allowance (stores_below (bit_at above.now) blank_store n ++ park_sector_cleared (is_blank (sector_at image.old 0) || bit_at above.now 0))) (sector_at image.old)) }
{
    let blank = blocks::is_blank(images::sector(image, 0));
    let marked = bits::is_set(above, 0);
    let done = blank || marked;
    let left = clear_above(image, n, above, allowance)?;
    clear_park(image, done, left)
}
