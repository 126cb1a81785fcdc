//! The setup of a folder: what it says, if it is as it was written.
ghost use Rattle.std.specs.Prelude.{◌≡◌, ℕ, List, IfOk, IfErr, IsErrOf};
ghost use Rattle.table_folder.specs.Faults.{IsRefused};
ghost use Rattle.table_setup.specs.Sealed.{IsSealed};
ghost use Rattle.table_folder.specs.Setups.{IsChanged, IsNamed, IsReadFrom};

use crate::fault::TableFault;
use crate::mark::FileMark;
use crate::setup::setup_of;
use modprobe::{AliasForm, Setup};
use std::alloc::Global;
use table_setup::Sealed;

/// The name of the setup that these bytes of a file are, as a journal of it has it. `CutSetup` if they do not end with a last
/// line of their length. It computes no sum.
pub fn name_of_setup(alloc: Global, bytes: &[u8]) -> Result<Vec<u8>, TableFault>
    ensures named { IfOk result (λ name. IsNamed bytes.now name.items) }
    ensures fault { IfErr result IsRefused }
{
    match Sealed::read(bytes) {
        Some(sealed) => Ok(sealed.name(alloc)?),
        None => Err(TableFault::CutSetup),
    }
}

/// What a table was made of.
#[derive(Drop)]
pub struct FolderSetup {
    /// What the text says.
    pub setup: Setup,
    /// All before the last line of the file.
    text: Vec<u8>,
    /// The name of the setup, as a journal of it has it.
    pub name: Vec<u8>,
    /// Which file it was.
    pub(crate) mark: FileMark,
}

impl FolderSetup {
    /// What the bytes of a setup's file say, which has this mark, with its aliases in a form. `CutSetup` if they do not end
    /// with a last line of their length, and `ChangedSetup` if their text has another sum than that line says.
    #[tactic(auto, using(crate::proofs::SetupLemmas::cut_sealed, crate::proofs::SetupLemmas::cut_named))]
    pub(crate) fn read(
        alloc: Global,
        bytes: Vec<u8>,
        mark: FileMark,
        form: AliasForm,
    ) -> Result<FolderSetup, TableFault>
        ensures found { IfOk result (IsReadFrom bytes.items) }
        ensures mark { IfOk result (λ found. found.mark ≡ mark) }
        ensures cut { IsErrOf result TableFault.CutSetup → (text : List ℕ) (sum : ℕ) → IsSealed bytes.items text sum → ⊥ }
        ensures changed { IsErrOf result TableFault.ChangedSetup → IsChanged bytes.items }
        ensures fault { IfErr result IsRefused }
    {
        let Some(sealed) = Sealed::read(&bytes) else {
            return Err(TableFault::CutSetup);
        };
        if !sealed.is_sound() {
            return Err(TableFault::ChangedSetup);
        }
        let (length, name) = (sealed.text.len(), sealed.name(alloc)?);
        let mut text = bytes;
        text.truncate(length);
        let setup = setup_of(alloc, &text, form)?;
        Ok(FolderSetup {
            setup,
            text,
            name,
            mark,
        })
    }

    /// The same setup, with its aliases in another form.
    pub(crate) fn in_form(self, alloc: Global, form: AliasForm) -> Result<FolderSetup, TableFault>
        ensures found { (bytes : List ℕ) → IsReadFrom bytes self → IfOk result (IsReadFrom bytes) }
        ensures mark { IfOk result (λ found. found.mark ≡ self.mark) }
        ensures fault { IfErr result IsRefused }
    {
        let mark = self.mark;
        let FolderSetup { text, name, .. } = self;
        let setup = setup_of(alloc, &text, form)?;
        Ok(FolderSetup {
            setup,
            text,
            name,
            mark,
        })
    }

    /// What the bytes of a setup say that is to take the place of this one, with its aliases as text. `CutSetup` if they do not end
    /// with a last line of their length, and `ChangedSetup` if their text has another sum than that line says.
    pub fn next(&self, alloc: Global, bytes: Vec<u8>) -> Result<FolderSetup, TableFault>
        ensures found { IfOk result (IsReadFrom bytes.items) }
        ensures fault { IfErr result IsRefused }
    {
        FolderSetup::read(alloc, bytes, self.mark, AliasForm::Text)
    }
}
