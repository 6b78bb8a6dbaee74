//! What the header of a database says, before it is opened. It stands in the first bytes of the first page.

/// The first byte of a database with a header.
const BEGINS: u8 = b'S';

/// Where the header has the size of a page in two bytes, and the number there that stands for the largest one.
const PAGE_SIZE: usize = 16;

const LARGEST: u16 = 1;

pub const LARGEST_SIZE: u32 = 65_536;

/// Where the first page says of what kind it is, and the kind that holds all rows of the catalog itself.
const KIND: usize = 100;

const LEAF: u8 = 13;

/// How the catalog's text begins that makes the table `project`.
const MAKES_PROJECT: &[u8] = b"CREATE TABLE project (";

/// Where the header has the number of pages, and the number of those that are free.
const PAGES: usize = 28;

const FREE_PAGES: usize = 36;

/// Where the header has the largest root page, which is 0 unless the file shrinks by itself.
const LARGEST_ROOT: usize = 52;

/// Where the header has the encoding of texts, and the number of UTF-8. Before the first table is made it is 0.
const ENCODING: usize = 56;

const UTF_8: u32 = 1;

/// The bytes of a log before its first frame, and where they have the size of a page and the two numbers of each frame
/// that belongs to the log.
const LOG_HEADER: usize = 32;

const LOG_PAGE_SIZE: usize = 8;

const LOG_SALT: [usize; 2] = [16, 20];

/// The bytes of a frame before its page. They begin with the page's number. The other numbers are those of its log.
const FRAME_HEADER: usize = 24;

const FRAME_SALT: [usize; 2] = [8, 12];

/// The bytes of the smallest page.
const SMALLEST_PAGE: usize = 512;

/// How many bytes a log has at least that holds a page. What a close leaves of a log is shorter.
pub const SHORTEST_LOG: u64 = (LOG_HEADER + FRAME_HEADER + SMALLEST_PAGE) as u64;

/// Returns the number in the four bytes at this place, of which the first is the highest.
fn number_at(bytes: &[u8], at: usize) -> Option<u32> {
    match bytes.get(at..at.saturating_add(4)) {
        Some([a, b, c, d]) => Some(u32::from_be_bytes([*a, *b, *c, *d])),
        _ => None,
    }
}

/// Returns the size of a page of a database that begins so; `None` if it has no header yet.
fn page_size_of(db: &[u8]) -> Option<u32> {
    match (db.first(), db.get(PAGE_SIZE..PAGE_SIZE + 2)) {
        (Some(&BEGINS), Some([high, low])) => match u16::from_be_bytes([*high, *low]) {
            LARGEST => Some(LARGEST_SIZE),
            size => Some(u32::from(size)),
        },
        _ => None,
    }
}

/// Returns whether a log that begins so has pages of another size than a database that begins so.
pub fn has_other_pages(log: &[u8], db: &[u8]) -> bool {
    match (number_at(log, LOG_PAGE_SIZE), page_size_of(db)) {
        (Some(of_log), Some(of_db)) => of_log != of_db,
        _ => false,
    }
}

/// Returns whether the frame belongs to the log: a log that begins again may end with frames of the one before.
fn is_frame_of(log: &[u8], frame: &[u8]) -> bool {
    number_at(frame, FRAME_SALT[0]) == number_at(log, LOG_SALT[0])
        && number_at(frame, FRAME_SALT[1]) == number_at(log, LOG_SALT[1])
}

/// Returns the first page of a database, as its log has it last, or else as its file has it.
fn first_page<'a>(log: &'a [u8], db: &'a [u8]) -> &'a [u8] {
    let mut page = db;
    let (Some(size), Some(frames)) = (number_at(log, LOG_PAGE_SIZE), log.get(LOG_HEADER..)) else {
        return page;
    };
    for frame in frames.chunks((size as usize).saturating_add(FRAME_HEADER)) {
        match frame.get(FRAME_HEADER..) {
            Some(_) if !is_frame_of(log, frame) => return page,
            Some(first) if number_at(frame, 0) == Some(1) => page = first,
            _ => {}
        }
    }
    page
}

/// Returns whether a database is of a kind that the store does not read: with auto-vacuum, or with texts in UTF-16. One
/// that has no header yet is not.
pub fn is_other_kind(log: &[u8], db: &[u8]) -> bool {
    let page = first_page(log, db);
    let has_vacuum = number_at(page, LARGEST_ROOT).is_some_and(|root| root > 0);
    let has_utf16 = number_at(page, ENCODING).is_some_and(|encoding| encoding > UTF_8);
    has_vacuum || has_utf16
}

/// Returns whether a text in the page makes the table `project`.
fn makes_project(page: &[u8]) -> bool {
    page.windows(MAKES_PROJECT.len())
        .any(|bytes| bytes == MAKES_PROJECT)
}

/// Returns whether the catalog has the table `project`, of which this is the first page; `None` if the page does not hold
/// all of the catalog.
fn lists_project(page: &[u8]) -> Option<bool> {
    match page.get(KIND) {
        Some(&LEAF) => Some(makes_project(page)),
        _ => None,
    }
}

/// Returns whether the log takes the table `project` out of a database that begins so, as no command does. Of a catalog
/// of several pages it is not known.
pub fn drops_project(log: &[u8], db: &[u8]) -> bool {
    let Some(size) = page_size_of(db) else {
        return false;
    };
    let page = db.get(..size as usize).unwrap_or(db);
    lists_project(page) == Some(true) && lists_project(first_page(log, page)) == Some(false)
}

/// Returns whether at least a quarter of the pages of a database are free, as its first page says.
pub fn has_many_free_pages(log: &[u8], db: &[u8]) -> bool {
    let page = first_page(log, db);
    match (number_at(page, FREE_PAGES), number_at(page, PAGES)) {
        (Some(free), Some(pages)) => free > 0 && u64::from(free) * 4 >= u64::from(pages),
        _ => false,
    }
}
