//! What is judged, made when the head has come: all memory is taken here.

ghost use Rattle.std.specs.Prelude.{◌≡◌, ◌≤◌, ◌^◌, [], Some, None, length, map, IfOk, IfSome, IfNone, IsSome};
ghost use Rattle.avm_model.specs.Segment.{SegmentFront};
ghost use Rattle.avm_model.specs.Head.{HeadData};
ghost use Rattle.avm_model.specs.HeadReading.{head_of};
ghost use Rattle.avm_auth.specs.Views.{auth_view};
ghost use Rattle.seg_file.specs.Coming.{with_front};
ghost use Rattle.audit_stream.specs.Subject.{IsSubject, NotJudged};
ghost use Rattle.audit_stream.specs.Course.{IsCourse};

use crate::course::Course;
use crate::loading::Loading;
use crate::matching::Matching;
use crate::rows::{bad_auth, double};
use crate::subject::Subject;
use avm_auth::{Auth, Auths, read_auths};
use avm_model::Digest;
use avm_num::{NoMemory, are_bytes};
use page_tree::Tree;
use rv32_mem::Ram;
use snap_state::{machine_of, read_head};
use std::alloc::Global;

/// The authenticators, once each has a whole signature.
fn collect<'a>(alloc: Global, auths: Auths<'a>) -> Result<Vec<Auth<'a>>, NoMemory>
    ensures { IfOk result (λ v. map auth_view v.items ≡ auths.entry) }
{
    let mut list = Vec::new(alloc);
    for auth in auths {
        if let Err(_) = list.push(auth) {
            return Err(NoMemory);
        }
    }
    Ok(list)
}

/// The head's machine with a RAM of zeros, and the tree of its pages.
fn course_of(alloc: Global, head: &[u8], pages: u32) -> Result<Course, NoMemory>
    requires head { IsSome (head_of head.now) }
    requires pages { (h : HeadData) → head_of head.now ≡ Some h → pages ≡ h.front.pages }
    ensures { IfOk result (λ c. (h : HeadData) → head_of head.now ≡ Some h → IsCourse c h [] []) }
{
    let mut ram = Ram::new(alloc, pages)?;
    let tree = Tree::build(alloc, &mut ram)?;
    let machine = machine_of(alloc, head, ram)?;
    Ok(Course {
        loading: Some(Loading::new(machine, tree)),
        replay: None,
        committed: false,
        fault: None,
    })
}

/// The authenticators, where each of them verifies.
fn own_of<'a>(alloc: Global, bad: Option<u32>, list: Auths<'a>) -> Result<Vec<Auth<'a>>, NoMemory>
    ensures own { IfOk result (λ v. bad ≡ None → map auth_view v.items ≡ list.entry) }
    ensures few { IfOk result (λ v. length v.items ≤ length list.entry) }
{
    match bad {
        Some(_) => Ok(Vec::new(alloc)),
        None => collect(alloc, list),
    }
}

/// What is judged of a segment with this head, which says so many pages, and of these authenticators; none where either is
/// outside its grammar or limit.
pub fn subject_of<'a>(
    alloc: Global,
    key: &[u8; 56],
    first: u64,
    before: &Digest,
    head: &[u8],
    pages: u32,
    auths: &'a [u8],
) -> Result<Option<Subject<'a>>, NoMemory>
    requires { (h : HeadData) → head_of head.now ≡ Some h → pages ≡ h.front.pages }
    ensures none { IfOk result (λ o. IfNone o (NotJudged head.now auths.now)) }
    ensures some { IfOk result (λ o. IfSome o (λ s. (f : SegmentFront) → f.start ≡ first → f.before ≡ before.now.0 → f.head ≡ head.now → IsSubject s key.now auths.now (with_front f))) }
{
    are_bytes(head);
    if auths.len() > 1 << 24 {
        return Ok(None);
    }
    let Some(list) = read_auths(auths) else {
        return Ok(None);
    };
    if !read_head(head) {
        return Ok(None);
    }
    let bad = bad_auth(key, list.again());
    let own = own_of(alloc, bad, list)?;
    let double = double(&own);
    let matching = Matching::new(alloc, own, before)?;
    let course = course_of(alloc, head, pages)?;
    Ok(Some(Subject {
        first,
        last: 0,
        bad,
        double,
        matching,
        course,
    }))
}
