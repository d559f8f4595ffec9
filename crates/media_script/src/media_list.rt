ghost use Rattle.std.specs.Prelude.{◌≡◌, ◌∷◌, ◌++◌, [], position, OnOk};
ghost use Rattle.media_script.specs.Draft.{is_of, with_stream};

use media_base::Listed;
use media_model::{Media, Stream};
use rtp_wire::Mid;
use std::alloc::{AllocError, Global};
use std::marker::Model;

/// Media in the order of their lines, each with its streams. Contracts see the list of them.
#[derive(Drop)]
pub struct MediaList {
    all: Vec<Media>,
}

impl Model for MediaList {
    ghost use Rattle.std.specs.Prelude.{List};
    ghost use Rattle.media_model.specs.declared.setup.Media.{Media};

    ghost Value = { List Media };

    ghost view = { λ m. m.all.items };
}

impl MediaList {
    /// No media.
    pub fn new(alloc: Global) -> Self
        ensures { result ≡ [] }
    {
        MediaList {
            all: Vec::new(alloc),
        }
    }

    /// One media more.
    pub fn push(&mut self, media: Media) -> Result<(), AllocError>
        ensures { OnOk result (self.new ≡ self.old ++ media ∷ []) }
    {
        self.all.push(media)?;
        Ok(())
    }

    /// The first media of this mid, if there is one, has one stream more.
    pub fn push_stream(&mut self, mid: Mid, stream: Stream) -> Result<(), AllocError>
        ensures { OnOk result (self.new ≡ with_stream mid stream self.old) }
    {
        match self.position(mid) {
            Some(at) => {
                add_stream(&mut self.all[at], stream)?;
                Ok(())
            }
            None => Ok(()),
        }
    }

    fn position(&self, mid: Mid) -> Option<usize>
        ensures { result ≡ position (is_of mid) self.now }
    {
        self.all.iter().position(|media| media.mid == mid)
    }

    /// The media in a row, which are not copied.
    pub fn into_listed(self) -> Listed<Media>
        ensures { result ≡ self }
    {
        Listed::from_vec(self.all)
    }
}

fn add_stream(media: &mut Media, stream: Stream) -> Result<(), AllocError>
    ensures { OnOk result (media.new ≡ record media.old { streams = media.old.streams ++ stream ∷ [] }) }
{
    let Stream {
        side,
        ssrc,
        rtx,
        rid,
    } = stream;
    media.streams.push(Stream {
        side,
        ssrc,
        rtx,
        rid,
    })
}
