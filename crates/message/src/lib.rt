// What the rules see of a frame: one view of its body, made when the body is read, and the message that it gives.
#![tactic(auto)]

ghost use Rattle.std.specs.Prelude.{◌≡◌, ◌≤◌, IfSome, length};
ghost use Rattle.groups.specs.Groups.{width, stored};
ghost use Rattle.message.specs.View.{commit_view, confirm_view, view_of, read_view, message_of};

mod received;

use frame::Body;
pub use received::Heard;

// A body by its numbers, as the rules' messages have them: sequence (1 Commit, 2 Confirm), status, group, counter, whether the group is supported, and the
// length of its token. What a body of its kind does not have is zero. That the token is short is a ghost field of Heard, and not of this: the definitions make
// a view of any numbers.
#[derive(Clone, Copy)]
pub struct View {
    pub sequence: u16,
    pub status: u16,
    pub group: u16,
    pub counter: u16,
    pub listed: bool,
    pub toklen: u16,
}

fn commit_view(status: u16, group: u16, listed: bool, toklen: u16) -> View
    ensures { result ≡ commit_view status group listed toklen }
{
    View {
        sequence: 1,
        status,
        group,
        counter: 0,
        listed,
        toklen,
    }
}

fn confirm_view(status: u16, counter: u16) -> View
    ensures { result ≡ confirm_view 2 status counter }
{
    View {
        sequence: 2,
        status,
        group: 0,
        counter,
        listed: false,
        toklen: 0,
    }
}

// The view of each shape. It asks that the token fits a view, so it is no `From`.
fn view_of(b: Body) -> View
    requires { (view_of (Some b)).toklen ≤ 256 }
    ensures { result ≡ view_of (Some b) }
{
    match b {
        Body::Commit { group, token } => commit_view(0, group, true, token as u16),
        Body::Unsupported { group } => commit_view(0, group, false, 0),
        Body::TokenRequest { group, token } => commit_view(76, group, false, token as u16),
        Body::GroupRefusal { group } => commit_view(77, group, false, 0),
        Body::OtherCommit { status } => commit_view(status, 0, false, 0),
        Body::Confirm { counter } => confirm_view(0, counter),
        Body::OtherConfirm { status } => confirm_view(status, 0),
    }
}

// The body is read. One that is not of the shapes has no view.
pub fn read(groups: &[u16], body: &[u8]) -> Option<View>
    ensures view { result ≡ read_view groups.now body.now }
    ensures short { IfSome result (λ v. v.toklen ≤ 256) }
{
    let b = frame::read(groups, body)?;
    Some(view_of(b))
}

// The token of a body that was read, as it is stored.
pub fn token(body: &[u8], v: View) -> [u8; 256]
    requires { v.toklen ≤ 256 }
    ensures { result ≡ (message_of body.now v).token }
{
    let n = v.toklen as usize;
    octets::filled(frame::token_of(body, n))
}

// The scalar and the element of a body that was read, where they lie, if it is a supported Commit; of any other body no octets.
pub fn commit(body: &[u8], v: View) -> &[u8]
    ensures { (length result.now ≤ width) × (stored result.now ≡ (message_of body.now v).commit) }
{
    let listed = v.listed;
    if listed {
        let n = v.toklen as usize;
        return frame::commit_of(body, v.group, n);
    }
    &body[..0]
}
