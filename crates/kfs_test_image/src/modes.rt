//! What the permission bits of a node grant a client.

use kfs_mode::Want::{Read, Search, Write};
use kfs_mode::{Class, Client, ClientFault, Want, class_of, may};
use std::process::Abort;

/// A client with these ids and supplementary groups.
fn client(ids: (u32, u32), groups: &[u32], privileged: bool) -> Result<Client, ClientFault> {
    Client::new(7, ids.0, ids.1, groups, privileged, 2, 99)
}

/// The class of such a client, not privileged, on a node with these ids.
fn class(ids: (u32, u32), groups: &[u32], node: (u32, u32)) -> Result<Class, ClientFault> {
    let client = client(ids, groups, false)?;
    Ok(class_of(&client, node.0, node.1))
}

/// Whether such a client, privileged or not, may do this with a node of these ids and this mode.
fn is_granted(
    ids: (u32, u32),
    groups: &[u32],
    privileged: bool,
    node: (u32, u32, u16),
    want: Want,
) -> Result<bool, ClientFault> {
    let client = client(ids, groups, privileged)?;
    Ok(may(&client, node.0, node.1, node.2, want))
}

/// Groups of a client with uid and gid 1000, a node, and whether the client may do this.
static ONE_CLASS: [(&[u32], u32, u32, u16, Want, bool); 13] = [
    // its owner may not write, though its group and the others may
    (&[], 1000, 1000, 0o077, Write, false),
    (&[], 1000, 1, 0o077, Read, false),
    (&[], 1001, 1000, 0o077, Write, true),
    (&[], 1001, 1001, 0o077, Write, true),
    // a supplementary group takes the client out of the others
    (&[50], 1, 50, 0o602, Write, false),
    (&[], 1, 50, 0o602, Write, true),
    (&[50], 1, 50, 0o060, Write, true),
    (&[], 1, 50, 0o060, Write, false),
    // as does its own group
    (&[], 1, 1000, 0o707, Search, false),
    // without the bit of writing the owner reads alone
    (&[], 1000, 1000, 0o400, Write, false),
    (&[], 1000, 1000, 0o400, Read, true),
    // the root of a fresh image is open to all
    (&[], 0, 0, 0o777, Write, true),
    (&[], 0, 0, 0o700, Search, false),
];

/// The same for a client with uid 0 that isn't privileged.
static USER_0: [(&[u32], u32, u32, u16, Want, bool); 3] = [
    (&[], 0, 1, 0o700, Write, true),
    (&[], 1, 1, 0o770, Write, false),
    (&[], 0, 0, 0o077, Search, false),
];

/// A node's ids, the class of a client with uid 1000, gid 2000 and groups 3000 and 4000, and the place
/// of the class's bits.
static CLASSES: [(u32, u32, Class, u16); 8] = [
    (1000, 1, Class::Owner, 0o100),
    (1000, 2000, Class::Owner, 0o100),
    (1000, 4000, Class::Owner, 0o100),
    (1, 2000, Class::Group, 0o010),
    (1, 3000, Class::Group, 0o010),
    (1, 4000, Class::Group, 0o010),
    (2000, 1000, Class::Other, 0o001),
    (0, 0, Class::Other, 0o001),
];

/// Whether exactly this one of nine bits grants it to that client, while a privileged client needs
/// none.
fn is_the_bit(node: (u32, u32), bit: u16, want: Want) -> Result<bool, ClientFault> {
    let (uid, gid) = node;
    let ids = (1000, 2000);
    let groups = [3000, 4000];
    let by_the_bit = is_granted(ids, &groups, false, (uid, gid, bit), want)?;
    let by_the_others = is_granted(ids, &groups, false, (uid, gid, 0o777 ^ bit), want)?;
    let by_privilege = is_granted(ids, &groups, true, (uid, gid, 0), want)?;
    Ok(by_the_bit && !by_the_others && by_privilege)
}

/// Whether that client is in this class, and each of the class's three bits grants one thing.
fn is_class(row: (u32, u32, Class, u16)) -> Result<bool, ClientFault> {
    let (uid, gid, wanted, unit) = row;
    let node = (uid, gid);
    Ok(
        class((1000, 2000), &[3000, 4000], node)? == wanted
            && is_the_bit(node, unit.saturating_mul(4), Read)?
            && is_the_bit(node, unit.saturating_mul(2), Write)?
            && is_the_bit(node, unit, Search)?,
    )
}

/// Whether a client with these ids and groups, not privileged, is granted what the row says.
fn is_row(ids: (u32, u32), row: (&[u32], u32, u32, u16, Want, bool)) -> Result<bool, ClientFault> {
    let (groups, uid, gid, mode, want, granted) = row;
    Ok(is_granted(ids, groups, false, (uid, gid, mode), want)? == granted)
}

/// Expects each row of a client with these ids.
fn expect_rows(rt: &impl Abort, ids: (u32, u32), rows: &[(&[u32], u32, u32, u16, Want, bool)]) {
    for row in rows {
        assert!(rt;
            is_row(ids, *row) == Ok(true),
            "{} {} {}",
            row.1,
            row.2,
            row.3
        );
    }
}

/// Expects each row.
fn expect_classes(rt: &impl Abort, rows: &[(u32, u32, Class, u16)]) {
    for row in rows {
        assert!(rt; is_class(*row) == Ok(true), "{} {}", row.0, row.1);
    }
}

#[test]
fn the_bits_of_the_one_class_that_holds(rt: HostRuntime) {
    expect_rows(&rt, (1000, 1000), &ONE_CLASS);
    expect_rows(&rt, (0, 0), &USER_0);
}

#[test]
fn each_bit_grants_one_thing_to_one_class(rt: HostRuntime) {
    expect_classes(&rt, &CLASSES);
}
