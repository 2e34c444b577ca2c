// The CRC.
use crate::line::Page;

pub fn put_sum32(bytes: &[u8], page: &mut Page) {
    page.put_given(&[u64::from(mpegts_crc::sum32(bytes))]);
}
