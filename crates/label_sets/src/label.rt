use crate::Text;
use base::{NoMemory, TryCopy};

/// A name and its value.
#[derive(Debug, PartialEq, Eq, PartialOrd, Ord, Drop)]
pub struct Label {
    pub name: Text,
    pub value: Text,
}

impl TryCopy for Label {
    fn copy(&self) -> Result<Self, NoMemory> {
        Ok(Label {
            name: self.name.copy()?,
            value: self.value.copy()?,
        })
    }
}
