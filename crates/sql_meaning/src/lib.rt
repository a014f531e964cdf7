//! The meaning of requests, in definitions alone: worlds, what sessions ask, the causes that stand against it, cursors, replies, and the
//! steps from a world to a reply and a world. No box, scan, plan or run is in it. The crate has no function: its definitions are under
//! `specs/`, and every contract of the engine is stated by them.
