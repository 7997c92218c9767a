//! The table of the entries: each one's tag, variant, the call that takes it, and its fields with their
//! codecs.

/// Expands `$callback!` with its arguments and then all entries, each as
/// `tag Variant call { field: codec, .. }`. A codec is a module of this crate. The call takes the
/// entry's fields as its arguments.
#[macro_export]
macro_rules! entry_table {
    ($callback:ident($($arguments:tt)*)) => {
        $callback! {
            [$($arguments)*]
            1 Create create { dir: number32, name: name, number: number32, kind: kind, mode: mode }
            2 Write write { number: number32, offset: number64, payload: payload }
            3 Truncate truncate { number: number32, size: number64 }
            4 Link link { number: number32, dir: number32, name: name }
            5 Unlink unlink { dir: number32, name: name, kind: kind }
            6 Rename rename { dir: number32, name: name, new_dir: number32, new_name: name }
            7 Chmod chmod { number: number32, mode: mode }
            8 Regroup regroup { number: number32, group: group }
        }
    };
}
