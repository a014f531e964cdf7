//! Texts of statements over the tables of a database, looked at by what they mean: of pages, of deletes and of inserts.
use sqlite::{Connection, Error, MemStore};
use sqlite_looks::{
    delete_text, insert_text, page_text, puts_in, reads_page, rows_between, tables_are_free,
    takes_out,
};
use std::alloc::{AllocError, Global};
use std::test::Fail;

// A table without a key, of three columns, whose names have to be quoted, and one with a key in the middle.
const TABLES: &str = "CREATE TABLE \"a \"\"b\"\"\" (\"order\" TEXT, \"x\"\"y\" INTEGER, z);
    CREATE TABLE item (name TEXT, id INTEGER PRIMARY KEY, n INTEGER, oid TEXT);
    CREATE TABLE child (id INTEGER PRIMARY KEY, item INTEGER REFERENCES item (id) ON DELETE CASCADE);
    CREATE TABLE taken (rowid TEXT, _rowid_ TEXT, oid TEXT);
    CREATE TABLE stamped (n INTEGER, at TEXT DEFAULT CURRENT_TIMESTAMP);
    CREATE TABLE counted (id INTEGER PRIMARY KEY AUTOINCREMENT, n INTEGER);
    INSERT INTO item VALUES ('a', 1, 10, NULL), ('b', 2, 20, NULL), ('c', 5, 50, 'o')";

/// A database of these tables. Like the other functions here it has no clause, so that the proof of a test does not carry the state of
/// each call.
pub fn database(alloc: Global) -> Result<Connection<MemStore>, Error> {
    let mut conn = Connection::open_in_memory(alloc)?;
    conn.execute_batch(TABLES)?;
    Ok(conn)
}

// The tree of the table at a place of the schema.
fn tree_at(conn: &Connection<MemStore>, place: usize) -> u32 {
    match conn.schema().tables.get(place) {
        Some(table) => table.tree,
        None => 0,
    }
}

// Whether a text reads pages of 64 rows of the table at a place of the schema.
fn reads(
    alloc: Global,
    conn: &Connection<MemStore>,
    text: &str,
    place: usize,
    places: &[usize],
) -> Result<bool, AllocError> {
    reads_page(
        alloc,
        conn.schema(),
        text.as_bytes(),
        tree_at(conn, place),
        places,
        64,
    )
}

// Whether a text takes the row of a rowid out of the table at a place of the schema.
fn takes(
    alloc: Global,
    conn: &Connection<MemStore>,
    text: &str,
    place: usize,
) -> Result<bool, AllocError> {
    takes_out(
        alloc,
        conn.schema(),
        text.as_bytes(),
        place,
        tree_at(conn, place),
    )
}

// Whether a text puts a row of these cells into the table at a place of the schema.
fn puts(
    alloc: Global,
    conn: &Connection<MemStore>,
    text: &str,
    place: usize,
    cells: &[Option<usize>],
) -> Result<bool, AllocError> {
    puts_in(
        alloc,
        conn.schema(),
        text.as_bytes(),
        place,
        cells,
        cells.len(),
    )
}

// How many rows a page of `item` has, where its text reads one; `None` within a transaction, too.
fn count(
    alloc: Global,
    conn: &mut Connection<MemStore>,
    text: &str,
    low: i64,
    high: i64,
) -> Result<Option<usize>, Error> {
    let tree = tree_at(conn, 1);
    if !conn.is_autocommit() {
        return Ok(None);
    }
    match rows_between(alloc, conn, text, tree, &[0, 1, 3], 64, low, high)? {
        Some(rows) => Ok(Some(rows.len())),
        None => Ok(None),
    }
}

#[test]
fn built_texts_pass_for_quoted_names(rt: HostRuntime) -> Result<(), Fail> {
    let alloc = rt.alloc();
    let conn = database(alloc)?;
    let columns = ["order", "x\"y", "z"];
    let page = page_text(alloc, "rowid", "a \"b\"", &columns)?;
    assert_eq!(rt; reads(alloc, &conn, &page, 0, &[0, 1, 2, 3])?, true);
    let delete = delete_text(alloc, "oid", "a \"b\"")?;
    assert_eq!(rt; takes(alloc, &conn, &delete, 0)?, true);
    let insert = insert_text(alloc, "_rowid_", "a \"b\"", &columns)?;
    assert_eq!(rt;
        puts(
            alloc,
            &conn,
            &insert,
            0,
            &[Some(0), Some(1), Some(2), Some(3)]
        )?,
        true
    );
    Ok(())
}

#[test]
fn built_texts_pass_for_a_key_in_the_middle(rt: HostRuntime) -> Result<(), Fail> {
    let alloc = rt.alloc();
    let conn = database(alloc)?;
    let page = page_text(alloc, "rowid", "item", &["name", "n"])?;
    assert_eq!(rt; reads(alloc, &conn, &page, 1, &[0, 1, 3])?, true);
    assert_eq!(rt; reads(alloc, &conn, &page, 1, &[0, 1, 4])?, false);
    let insert = insert_text(alloc, "rowid", "item", &["name", "n", "oid"])?;
    let cells = [Some(0), Some(1), None, Some(2), Some(3)];
    assert_eq!(rt; puts(alloc, &conn, &insert, 1, &cells)?, true);
    Ok(())
}

#[test]
fn no_name_of_the_rowid_is_left(rt: HostRuntime) -> Result<(), Fail> {
    let alloc = rt.alloc();
    let conn = database(alloc)?;
    for name in ["rowid", "_rowid_", "oid"] {
        let page = page_text(alloc, name, "taken", &["oid"])?;
        assert_eq!(rt; reads(alloc, &conn, &page, 3, &[0, 3])?, false);
    }
    Ok(())
}

#[test]
fn other_queries_are_no_pages(rt: HostRuntime) -> Result<(), Fail> {
    let alloc = rt.alloc();
    let conn = database(alloc)?;
    for text in [
        "SELECT rowid, n FROM item WHERE rowid >= ?1 AND rowid <= ?2 ORDER BY rowid LIMIT 63",
        "SELECT DISTINCT rowid, n FROM item WHERE rowid >= ?1 AND rowid <= ?2 ORDER BY rowid LIMIT 64",
        "SELECT rowid, n FROM item WHERE rowid <= ?1 AND rowid >= ?2 ORDER BY rowid LIMIT 64",
        "SELECT rowid, n FROM item WHERE rowid >= ?1 AND rowid <= ?2 ORDER BY rowid DESC LIMIT 64",
        "SELECT rowid, n FROM item WHERE rowid >= ?1 AND rowid <= ?2 ORDER BY rowid LIMIT 64 OFFSET 1",
        "SELECT item.rowid, n FROM item, taken WHERE item.rowid >= ?1 AND item.rowid <= ?2 ORDER BY item.rowid LIMIT 64",
        "SELECT rowid, rowid FROM child WHERE rowid >= ?1 AND rowid <= ?2 ORDER BY rowid LIMIT 64",
        "SELECT",
    ] {
        assert_eq!(rt; reads(alloc, &conn, text, 1, &[0, 3])?, false, "{text}");
    }
    Ok(())
}

#[test]
fn other_changes_are_refused(rt: HostRuntime) -> Result<(), Fail> {
    let alloc = rt.alloc();
    let conn = database(alloc)?;
    assert_eq!(rt;
        takes(alloc, &conn, "DELETE FROM item WHERE rowid = ?1", 1)?,
        true
    );
    assert_eq!(rt;
        takes(
            alloc,
            &conn,
            "DELETE FROM item WHERE rowid = ?1 RETURNING n",
            1
        )?,
        false
    );
    assert_eq!(rt;
        takes(alloc, &conn, "DELETE FROM item WHERE rowid >= ?1", 1)?,
        false
    );
    assert_eq!(rt;
        takes(alloc, &conn, "DELETE FROM child WHERE rowid = ?1", 1)?,
        false
    );
    let cells = [Some(0), None, Some(1)];
    assert_eq!(rt;
        puts(alloc, &conn, "INSERT INTO child VALUES (?1, ?2)", 2, &cells)?,
        true
    );
    assert_eq!(rt;
        puts(alloc, &conn, "INSERT INTO child VALUES (?2, ?1)", 2, &cells)?,
        false
    );
    assert_eq!(rt;
        puts(alloc, &conn, "INSERT INTO child VALUES (?1, 7)", 2, &cells)?,
        false
    );
    assert_eq!(rt;
        puts(
            alloc,
            &conn,
            "INSERT OR REPLACE INTO child VALUES (?1, ?2)",
            2,
            &cells
        )?,
        false
    );
    Ok(())
}

#[test]
fn pages_are_read_by_texts_that_pass(rt: HostRuntime) -> Result<(), Fail> {
    let alloc = rt.alloc();
    let mut conn = database(alloc)?;
    let page = page_text(alloc, "rowid", "item", &["name", "n"])?;
    assert_eq!(rt; count(alloc, &mut conn, &page, 2, 9)?, Some(2));
    assert_eq!(rt;
        count(alloc, &mut conn, "SELECT name FROM item", 2, 9)?,
        None
    );
    Ok(())
}

#[test]
fn a_parent_is_not_free(rt: HostRuntime) -> Result<(), Fail> {
    let alloc = rt.alloc();
    let conn = database(alloc)?;
    assert_eq!(rt; tables_are_free(conn.schema(), tree_at(&conn, 1)), false);
    assert_eq!(rt; tables_are_free(conn.schema(), tree_at(&conn, 2)), true);
    Ok(())
}
