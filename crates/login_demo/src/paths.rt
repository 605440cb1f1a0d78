//! Where a path leads, and how a path is shown.
ghost use Rattle.std.specs.Prelude.{◌≡◌, map, string_bytes, IfOk, OnOk};
ghost use Rattle.login_demo.specs.Walking.{entered, path_text, start_names, walked};

use std::alloc::{AllocError, Global};

/// The names of the directory from which a path leads.
fn start_names<'a>(
    alloc: Global,
    directory: &[&'a str],
    path: &str,
) -> Result<Vec<&'a str>, AllocError>
    ensures { IfOk result (λ names. map (λ name. name.now) names.items
        ≡ start_names (map (λ name. name.now) directory.now) path.now) }
{
    if path.starts_with('/') {
        return Ok(Vec::new(alloc));
    }
    Vec::from_slice(alloc, directory)
}

/// Goes from the directory with these names to the one that a name of a path leads to.
fn enter<'a>(names: &mut Vec<&'a str>, name: &'a str) -> Result<(), AllocError>
    ensures { OnOk result (map (λ name. name.now) names.new.items
        ≡ entered (map (λ name. name.now) names.old.items) name.now) }
{
    match name {
        "" | "." => {}
        ".." => {
            names.pop();
        }
        _ => names.push(name)?,
    }
    Ok(())
}

/// The names to which a path leads from the directory with these names (RFC 959 leaves the syntax
/// of paths to the server; this is that of POSIX).
pub fn walk<'a>(
    alloc: Global,
    directory: &[&'a str],
    path: &'a str,
) -> Result<Vec<&'a str>, AllocError>
    // At `Ok` the names are those to which the path leads from this directory.
    ensures { IfOk result (λ names. map (λ name. name.now) names.items
        ≡ walked (map (λ name. name.now) directory.now) path.now) }
{
    let mut names = start_names(alloc, directory, path)?;
    for name in path.split('/') {
        enter(&mut names, name)?;
    }
    Ok(names)
}

/// The path from the root with these names.
pub fn path_text(alloc: Global, names: &[&str]) -> Result<String, AllocError>
    // At `Ok` the text is the path from the root with these names.
    ensures { IfOk result (λ text. string_bytes text
        ≡ path_text (map (λ name. name.now) names.now)) }
{
    if names.is_empty() {
        return String::from_str(alloc, "/");
    }
    let mut text = String::new(alloc);
    for name in names {
        text.push('/')?;
        text.push_str(name)?;
    }
    Ok(text)
}
