//! The rows of the table of a file.
ghost use Rattle.std.specs.Prelude.{◌≡◌, ◌<◌, ◌+◌, ◌*◌, ◌≤◌, Some, IfSome, IfOk, IfErr, length};
ghost use Rattle.zone_file.specs.Kinds.{IsFileRow, time_length, transition_time};
ghost use Rattle.zone_file.specs.Tables.{AreFileRows, IsRowsError};
ghost use Rattle.zone_table.specs.declared.row.Row.{Row};

use crate::kinds::kind_offset;
use crate::zone_file::ZoneFile;
use zone_table::Row;

/// Why rows are not filled.
#[derive(Clone, Copy, Debug, PartialEq, Eq)]
pub enum ZoneRowsError {
    /// There is room for fewer rows than the file has, which is this number.
    NoRoom(usize),
    /// The row at this place, counted from 0, has no kind of local time, or one whose offset is a day or more.
    NoRow(usize),
}

impl<'a> ZoneFile<'a> {
    /// Writes the rows of the file's table into `rows`, and returns how many there are.
    ///
    /// On an error, some rows may be written. Whether the rows rise, `first_unordered` of `zone_table` says.
    ///
    /// ```
    /// use zone_table::FixedOffset;
    /// let kinds = &[0, 0, 0, 0, 0, 0, 0, 0, 14, 16, 1, 0];
    /// let file = ZoneFile { version: 0, times: &[0, 0, 0, 60], places: &[1], kinds, names: b"BST\0", footer: &[] };
    /// let mut rows = [Row { second: 0, offset: FixedOffset::east_opt(0)? }; 2];
    /// file.read_rows(&mut rows) // Ok(1)
    /// rows[0] // Row { second: 60, offset: +01:00 }
    /// file.read_rows(&mut []) // Err(NoRoom(1))
    /// ```
    pub fn read_rows(&self, rows: &mut [Row]) -> Result<usize, ZoneRowsError>
        ensures count { IfOk result (λ n. n ≡ length self.now.places.now) }
        ensures within { IfOk result (λ n. n ≤ length rows.old) }
        ensures rows { IfOk result (λ n. AreFileRows self.now.version self.now.times.now self.now.places.now self.now.kinds.now n rows.new) }
        ensures room { length rows.new ≡ length rows.old }
        ensures error { IfErr result (λ e. IsRowsError self.now.version self.now.times.now self.now.places.now self.now.kinds.now (length rows.old) e) }
    {
        let count = self.places.len();
        if rows.len() < count {
            return Err(ZoneRowsError::NoRoom(count));
        }
        let mut place = 0;
        while place < count {
            let Some(row) = self.row(place) else {
                return Err(ZoneRowsError::NoRow(place));
            };
            rows[place] = row;
            place += 1;
        }
        Ok(count)
    }

    /// Returns the row at a place of the file's table, counted from 0.
    ///
    /// Returns `None` if the file has no such row, or if its kind is missing or has an offset of a day or more.
    ///
    /// ```
    /// let kinds = &[0, 0, 0, 0, 0, 0, 0, 0, 14, 16, 1, 0];
    /// let file = ZoneFile { version: 0, times: &[0, 0, 0, 60], places: &[1], kinds, names: b"BST\0", footer: &[] };
    /// file.row(0) // Some(Row { second: 60, offset: +01:00 })
    /// file.row(1) // None
    /// ```
    pub fn row(&self, place: usize) -> Option<Row>
        ensures read { IfSome result (λ row. IsFileRow self.now.version self.now.times.now self.now.places.now self.now.kinds.now place row) }
        ensures every { (row : Row) → IsFileRow self.now.version self.now.times.now self.now.places.now self.now.kinds.now place row
            → result ≡ Some row }
    {
        if place >= self.places.len() {
            return None;
        }
        let second = transition_time(self.version, self.times, place)?;
        let offset = kind_offset(self.kinds, self.places[place])?;
        Some(Row { second, offset })
    }
}

// The time at a place, if it is there.
fn transition_time(version: u8, times: &[u8], place: usize) -> Option<i64>
    ensures read { IfSome result (λ second. (place * time_length version + time_length version ≤ length times.now) × (transition_time version times.now place ≡ second)) }
    ensures every { place * time_length version + time_length version ≤ length times.now → result ≡ Some (transition_time version times.now place) }
{
    if version == 0 {
        if times.len() / 4 <= place {
            return None;
        }
        let (bytes, _) = times[place * 4..].split_first_chunk::<4>().unwrap();
        return Some(i64::from(i32::from_be_bytes(*bytes)));
    }
    if times.len() / 8 <= place {
        return None;
    }
    let (bytes, _) = times[place * 8..].split_first_chunk::<8>().unwrap();
    Some(i64::from_be_bytes(*bytes))
}
