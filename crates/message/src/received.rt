// A frame as the rules hear it, together with what its call gives.
#![tactic(auto)]

ghost use Rattle.std.specs.Prelude.{◌≡◌, ◌≤◌, length};
ghost use Rattle.groups.specs.Groups.{Storable};
ghost use Rattle.message.specs.View.{message_of};

use crate::View;
use groups::Stock;
use rules::Given;

// What a call gives a rule: what the table and the call say, the frame's body with its view, and the stock. The token is short; the stock's width has room
// for every scalar, and stores the frame's commit without loss.
#[derive(Clone, Copy)]
pub struct Heard<'b, 's> {
    pub given: Given,
    pub view: View,
    pub body: &'b [u8],
    pub stock: Stock<'s>,
    ghost short: { view.toklen ≤ 256 },
    ghost scalars: { 66 ≤ stock.width },
    ghost storable: { Storable stock.width (message_of body.now view).commit },
}

impl<'b, 's> Heard<'b, 's> {
    ghost use Rattle.groups.specs.Groups.{width, stored};
    ghost use Rattle.message.specs.Received.{message_in};

    // The token, as it is stored: [0; 256] filled with it.
    pub fn token(&self) -> [u8; 256]
        ensures { result ≡ (message_in self.now).token }
    {
        crate::token(self.body, self.view)
    }

    // The scalar and the element, where they lie, if the frame is a supported Commit; of any other no octets.
    pub fn commit(&self) -> &'b [u8]
        ensures { (length result.now ≤ width) × (stored result.now ≡ (message_in self.now).commit) }
    {
        crate::commit(self.body, self.view)
    }
}
