//! What a card is read over: its image or a chip, with changes laid on it in two layers.
use changed::change::Change;
use changed::{ChangeRefusal, Changed};
use image::Image;
use source::Source;
use std::alloc::{AllocError, Global};

/// What lies below the changes.
#[derive(Clone, Copy)]
pub(crate) enum Below {
    /// The image itself.
    Image,
    /// A chip that answers so many bytes at most, and takes so many commands.
    Chip { span: u8, commands: u32 },
}

/// Changes in two layers.
#[derive(Drop)]
pub(crate) struct Layers {
    lower: Vec<Change>,
    upper: Vec<Change>,
    on_top: bool,
}

impl Layers {
    /// No change.
    pub(crate) fn new(heap: Global) -> Layers {
        Layers {
            lower: Vec::new(heap),
            upper: Vec::new(heap),
            on_top: false,
        }
    }

    /// Further changes go to the upper layer; false where they do already.
    pub(crate) fn go_up(&mut self) -> bool {
        let was_below = !self.on_top;
        self.on_top = true;
        was_below
    }

    /// One change more, unless a changed source refuses it.
    pub(crate) fn add(&mut self, change: Change) -> Result<Result<(), ChangeRefusal>, AllocError> {
        let layer = if self.on_top {
            &mut self.upper
        } else {
            &mut self.lower
        };
        layer.push(change)?;
        let laid = lay(Image::over(b""), layer);
        if laid.is_err() {
            layer.pop();
        }
        Ok(laid.map(|_| ()))
    }

    /// The source with both layers over it.
    pub(crate) fn over<S: Source + Drop>(
        &self,
        source: S,
    ) -> Result<Changed<Changed<S>>, ChangeRefusal> {
        lay(lay(source, &self.lower)?, &self.upper)
    }
}

/// A source with these changes over it.
fn lay<S: Source + Drop>(source: S, changes: &[Change]) -> Result<Changed<S>, ChangeRefusal> {
    let mut changed = Changed::over(source);
    for change in changes {
        match *change {
            Change::Remove { file } => changed.remove(file)?,
            Change::Set { file, place, byte } => changed.set(file, place, byte)?,
        }
    }
    Ok(changed)
}
