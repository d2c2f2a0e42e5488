// The load call on files, and its answers in a checksum.
use basin::file;
use basin_testing::checksum::add_basin;
use testing::checksum::Checksum;
use testing::refusals;

// One more load: its number and place.
pub fn load(sum: &mut Checksum, bytes: &[u8]) -> [u64; 2] {
    let given = file::load(bytes);
    let told = refusals::told(&given);
    sum.add_row(&told);
    add_basin(sum, &given.unwrap_or_default());
    told
}
