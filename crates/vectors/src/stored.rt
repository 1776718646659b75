//! The stored form of cases.

/// The first bytes of a file of cases.
const MAGIC: &[u8] = b"EJVCASE1";

/// A damage or a slice as it is stored.
pub(crate) type Entry = [u8; 6];

/// A case. Its damages and its slices are as they are stored.
#[derive(Clone, Copy)]
pub(crate) struct Case<'b> {
    pub(crate) file: &'b [u8],
    pub(crate) keys: &'b [u8],
    pub(crate) sheet: usize,
    pub(crate) pending: usize,
    pub(crate) damages: &'b [Entry],
    pub(crate) cells: usize,
    pub(crate) memory: usize,
    pub(crate) slots: usize,
    pub(crate) slices: &'b [Entry],
}

/// The number in the first four bytes of a damage or a slice, and the one in its last two.
pub(crate) fn entry_numbers(entry: Entry) -> (u32, u16) {
    let [a, b, c, d, e, f] = entry;
    (u32::from_be_bytes([a, b, c, d]), u16::from_be_bytes([e, f]))
}

/// The stored bytes that are not read yet.
#[derive(Drop)]
pub(crate) struct Stored<'b> {
    rest: &'b [u8],
}

impl<'b> Stored<'b> {
    /// The bytes after the first eight, if those are of a file of cases.
    pub(crate) fn open(bytes: &'b [u8]) -> Option<Stored<'b>> {
        let rest = bytes.strip_prefix(MAGIC)?;
        Some(Stored { rest })
    }

    pub(crate) fn is_empty(&self) -> bool {
        self.rest.is_empty()
    }

    /// Takes so many bytes.
    fn take(&mut self, size: usize) -> Option<&'b [u8]> {
        let (front, rest) = self.rest.split_at_checked(size)?;
        self.rest = rest;
        Some(front)
    }

    /// Takes as many bytes as the array has.
    fn take_array<const N: usize>(&mut self) -> Option<[u8; N]> {
        let (front, rest) = self.rest.split_first_chunk()?;
        self.rest = rest;
        Some(*front)
    }

    /// Takes a count of four bytes.
    fn take_count(&mut self) -> Option<usize> {
        Some(u32::from_be_bytes(self.take_array()?) as usize)
    }

    /// Takes a count of four bytes, and so many bytes.
    fn take_counted(&mut self) -> Option<&'b [u8]> {
        let size = self.take_count()?;
        self.take(size)
    }

    /// Takes a count of one byte, and so many damages or slices.
    fn take_entries(&mut self) -> Option<&'b [Entry]> {
        let [count] = self.take_array::<1>()?;
        let bytes = self.take(count as usize * size_of::<Entry>())?;
        Some(bytes.as_chunks().0)
    }

    /// Takes a case; none if it is cut.
    pub(crate) fn next_case(&mut self) -> Option<Case<'b>> {
        let file = self.take_counted()?;
        let keys = self.take_counted()?;
        let sheet = self.take_count()?;
        let pending = self.take_count()?;
        let damages = self.take_entries()?;
        let cells = self.take_count()?;
        let memory = self.take_count()?;
        let slots = u16::from_be_bytes(self.take_array()?) as usize;
        let slices = self.take_entries()?;
        Some(Case {
            file,
            keys,
            sheet,
            pending,
            damages,
            cells,
            memory,
            slots,
            slices,
        })
    }
}
