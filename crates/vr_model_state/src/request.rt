//! What a request says by itself.
ghost use Rattle.std.specs.Prelude.{◌≡◌, Some, None};
ghost use Rattle.std.specs.Option.{option_copied, option_map_or};
ghost use Rattle.vr_history.specs.Case as cases;
ghost use Rattle.vr_history.specs.Names as names;

use vr_types::{FileRef, Find, Integrity, Mode, Request};

/// The file that a request is on.
pub fn file_of(request: &Request) -> Option<FileRef>
    ensures { result ≡ cases.file_of request.now }
{
    match request {
        Request::Get { file, .. } => Some(*file),
        Request::Point { file, .. } => Some(*file),
        Request::Add { file, .. } => Some(*file),
        Request::Update { file, .. } => Some(*file),
        Request::Erase { file } => Some(*file),
        Request::EndReq { file } => Some(*file),
        Request::Commit => None,
        Request::Backout => None,
    }
}

/// The part of the base cluster of the request's file, 0 where there is none.
pub fn base_of(request: &Request) -> u32
    ensures { result ≡ option_map_or (λ file. file.base.0) (cases.file_of request.now) 0 }
{
    match file_of(request) {
        None => 0,
        Some(file) => file.base.0,
    }
}

/// Which record a read asks for.
pub fn find_of(request: &Request) -> Option<&Find>
    ensures { option_copied result ≡ cases.find_of request.now }
{
    match request {
        Request::Get { find, .. } => Some(find),
        Request::Point { find, .. } => Some(find),
        Request::Add { .. } | Request::Update { .. } | Request::Erase { .. } => None,
        Request::EndReq { .. } | Request::Commit | Request::Backout => None,
    }
}

/// The record that a change gives its place.
pub fn new_record(request: &Request) -> Option<&[u8]>
    ensures { option_copied result ≡ cases.new_record request.now }
{
    match request {
        Request::Add { bytes, .. } => Some(bytes.as_slice()),
        Request::Update { bytes, .. } => Some(bytes.as_slice()),
        Request::Get { .. } | Request::Point { .. } | Request::Erase { .. } => None,
        Request::EndReq { .. } | Request::Commit | Request::Backout => None,
    }
}

/// Whether it is a PUT add.
pub fn is_add(request: &Request) -> bool
    ensures { result ≡ cases.is_add request.now }
{
    match request {
        Request::Add { .. } => true,
        Request::Get { .. } | Request::Point { .. } | Request::Update { .. } => false,
        Request::Erase { .. } | Request::EndReq { .. } | Request::Commit | Request::Backout =>
            false,
    }
}

/// Whether it acts on the record that the file holds for update.
pub fn acts_on_held(request: &Request) -> bool
    ensures { result ≡ cases.acts_on_held request.now }
{
    match request {
        Request::Update { .. } | Request::Erase { .. } => true,
        Request::Get { .. } | Request::Point { .. } | Request::Add { .. } => false,
        Request::EndReq { .. } | Request::Commit | Request::Backout => false,
    }
}

/// Whether a read also finds what a live unit of recovery may bring back.
pub fn sees_kept(request: &Request) -> bool
    ensures { result ≡ cases.sees_kept request.now }
{
    match request {
        Request::Get {
            update,
            integrity,
            ..
        } => *update || is_consistent(*integrity),
        Request::Point { .. } | Request::Add { .. } | Request::Update { .. } => false,
        Request::Erase { .. } | Request::EndReq { .. } | Request::Commit | Request::Backout =>
            false,
    }
}

fn is_consistent(integrity: Integrity) -> bool
    ensures { result ≡ cases.is_consistent integrity }
{
    match integrity {
        Integrity::Nri => false,
        Integrity::Cr | Integrity::Cre => true,
    }
}

/// How a request asks for its locks.
pub fn mode_asked(request: &Request) -> Mode
    ensures { result ≡ names.mode_asked request.now }
{
    match request {
        Request::Get { update, .. } => {
            if *update {
                Mode::Exclusive
            } else {
                Mode::Shared
            }
        }
        Request::Add { .. } | Request::Update { .. } | Request::Erase { .. } => Mode::Exclusive,
        Request::Point { .. } | Request::EndReq { .. } => Mode::Shared,
        Request::Commit | Request::Backout => Mode::Shared,
    }
}
