//! Which way `paths` moves.
ghost use Rattle.std.specs.Prelude.{◌≡◌};
ghost use Rattle.script_reader.specs.Ways.{way_of};

/// The word after `paths`: to below a folder, or out of one. (reposurgeon manual, `paths`)
#[derive(Clone, Copy)]
pub enum Way {
    Sub,
    Sup,
}

impl Way {
    /// The word that these bytes are.
    pub fn of(text: &[u8]) -> Option<Way>
        ensures { result ≡ way_of text.now }
    {
        if text == b"sub".as_slice() {
            Some(Way::Sub)
        } else if text == b"sup".as_slice() {
            Some(Way::Sup)
        } else {
            None
        }
    }
}
