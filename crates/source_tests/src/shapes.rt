//! Shapes of the tables of a database, by texts that are built and by texts that are given.
use crate::looks::database;
use sqlite::{Connection, MemStore};
use sqlite_looks::{ReadOnly, Shape, Texts, look_at, shape_at, shape_called, table_called};
use std::alloc::{AllocError, Global};
use std::test::Fail;

// Returns the shape of a table by its stored name, where its first column is wanted.
fn shape_named(
    alloc: Global,
    conn: &Connection<MemStore>,
    name: &str,
) -> Result<Option<Shape>, AllocError> {
    match conn.schema().table_named(name.as_bytes()) {
        Some(at) => shape_at(alloc, conn.schema(), at, &[0]),
        None => Ok(None),
    }
}

// Whether a shape may be written, in a word.
fn word_of(shape: &Shape) -> &'static str {
    match shape.read_only {
        None => "written",
        Some(ReadOnly::Counted) => "counted",
        Some(ReadOnly::Stamped) => "stamped",
        Some(ReadOnly::Referenced) => "referenced",
        Some(ReadOnly::OtherMeaning) => "other",
    }
}

// The place of the first column in a row, its key, how many cells a new row has, and whether it is written.
fn line_of(alloc: Global, shape: &Shape) -> Result<String, AllocError> {
    let key = match shape.key {
        Some(at) => at,
        None => 99,
    };
    let place = match shape.places.get(1) {
        Some(at) => *at,
        None => 99,
    };
    format!(in alloc;
        "{} {} {} {}",
        place,
        key,
        shape.cells.len(),
        word_of(shape)
    )
}

#[test]
fn tables_are_looked_at(rt: HostRuntime) -> Result<(), Fail> {
    let alloc = rt.alloc();
    let conn = database(alloc)?;
    for (name, wanted) in [
        ("a \"b\"", "1 99 4 written"),
        ("item", "1 1 5 referenced"),
        ("child", "0 0 3 written"),
        ("stamped", "1 99 3 stamped"),
        ("counted", "0 0 3 counted"),
    ] {
        match shape_named(alloc, &conn, name)? {
            Some(shape) => assert_eq!(rt; line_of(alloc, &shape)?.as_str(), wanted),
            None => assert_eq!(rt; "no shape", wanted),
        }
    }
    Ok(())
}

#[test]
fn some_tables_have_no_shape(rt: HostRuntime) -> Result<(), Fail> {
    let alloc = rt.alloc();
    let conn = database(alloc)?;
    assert_eq!(rt; shape_named(alloc, &conn, "taken")?.is_none(), true);
    assert_eq!(rt; shape_at(alloc, conn.schema(), 99, &[])?.is_none(), true);
    assert_eq!(rt; shape_at(alloc, conn.schema(), 2, &[2])?.is_none(), true);
    assert_eq!(rt; shape_at(alloc, conn.schema(), 2, &[])?.is_some(), true);
    Ok(())
}

// Whether a table has this stored name; and where it can be read whole, how many places a page shows of it, and by which text.
fn page_called(
    alloc: Global,
    conn: &Connection<MemStore>,
    name: &str,
) -> Result<String, AllocError> {
    let place = table_called(conn.schema(), name.as_bytes());
    match shape_called(alloc, conn.schema(), name.as_bytes())? {
        Some(shape) => {
            let page = shape.texts.page.as_str();
            format!(in alloc; "{} {}: {page}", place.is_some(), shape.places.len())
        }
        None => format!(in alloc; "{}", place.is_some()),
    }
}

#[test]
fn tables_are_found_by_their_stored_names(rt: HostRuntime) -> Result<(), Fail> {
    let alloc = rt.alloc();
    let conn = database(alloc)?;
    for (name, wanted) in [
        (
            "a \"b\"",
            "true 4: SELECT rowid, \"order\", \"x\"\"y\", \"z\" FROM \"a \"\"b\"\"\" \
             WHERE rowid >= ?1 AND rowid <= ?2 ORDER BY rowid LIMIT 64",
        ),
        (
            "child",
            "true 3: SELECT rowid, \"id\", \"item\" FROM \"child\" WHERE rowid >= ?1 AND rowid <= ?2 ORDER BY rowid LIMIT 64",
        ),
        ("taken", "true"),
        ("Child", "false"),
    ] {
        assert_eq!(rt; page_called(alloc, &conn, name)?.as_str(), wanted);
    }
    Ok(())
}

// What a look finds at the table `child` with these texts.
fn look(
    alloc: Global,
    conn: &Connection<MemStore>,
    page: &str,
    delete: &str,
) -> Result<&'static str, AllocError> {
    let texts = Texts {
        page: String::from_str(alloc, page)?,
        delete: String::from_str(alloc, delete)?,
        insert: String::from_str(alloc, "INSERT INTO child VALUES (?1, ?2)")?,
    };
    match look_at(alloc, conn.schema(), 2, &[1], texts)? {
        Some(shape) => Ok(word_of(&shape)),
        None => Ok("none"),
    }
}

#[test]
fn shapes_are_as_their_texts_mean(rt: HostRuntime) -> Result<(), Fail> {
    let alloc = rt.alloc();
    let conn = database(alloc)?;
    let page = "SELECT id, item FROM child WHERE id >= ?1 AND id <= ?2 ORDER BY id LIMIT 64";
    let delete = "DELETE FROM child WHERE id = ?1";
    assert_eq!(rt; look(alloc, &conn, page, delete)?, "written");
    assert_eq!(rt;
        look(alloc, &conn, page, "DELETE FROM child WHERE item = ?1")?,
        "other"
    );
    assert_eq!(rt; look(alloc, &conn, delete, delete)?, "none");
    Ok(())
}
