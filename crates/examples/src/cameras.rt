// Tables of a camera and an arm: a report, figures and refusals.
ghost use Rattle.std.specs.Prelude.{◌≡◌, [], ◌∷◌, IfOk, Some, Err};
ghost use Rattle.tasks.specs.declared.refusal.Refusal.{Refusal};
ghost use Rattle.tasks.specs.Refused.{told};
ghost use Rattle.text.specs.Reading.{reading};
ghost use Rattle.examples.specs.Cameras.{report_told, figures_told, refusals_told, Figured};

use policies::by_line::ByLine;
use report::report::report;
use response::figures::figures;
use std::alloc::{AllocError, Global};
use tasks::table::Table;
use text::read::read;

pub(crate) fn reported(heap: Global) -> Result<Vec<u8>, AllocError>
    ensures { IfOk result (λ v. v.items ≡ report_told) }
{
    report(
        heap,
        b"CAM,SRE,2,4,E,10,11,20,40\nARM,SRE,1,1,R,30,40,50,80\n",
    )
}

// The figures of the table that a text says, under the by-line policy.
fn figures_of(text: &[u8]) -> [u32; 32]
    ensures { Figured text.now result }
{
    let mut table = Table::new();
    let mut places = [0; 32];
    if read(&mut table, text).is_ok() {
        let _ = figures(&ByLine {}, &table, &mut places);
    }
    places
}

// With R for E, and with DRE for the camera.
pub(crate) fn figures_by_change() -> [[u32; 32]; 2]
    ensures { result ≡ figures_told ∷ figures_told ∷ [] }
{
    [
        figures_of(b"CAM,SRE,2,4,R,10,11,20,40\nARM,SRE,1,1,R,30,40,50,80\n"),
        figures_of(b"CAM,DRE,2,4,E,10,11,20,40\nARM,SRE,1,1,R,30,40,50,80\n"),
    ]
}

// Number, line and place of the refusal of a text: numbers and no `Refusal`, since what is told of it is the example.
fn refused(text: &[u8]) -> Option<(u32, u32, usize)>
    ensures { (e : Refusal) → reading text.now ≡ Err e → result ≡ Some (told e) }
{
    let mut table = Table::new();
    read(&mut table, text).err().map(|refusal| refusal.told())
}

// With 40 for the arm's r, and of no byte.
pub(crate) fn refusals() -> [Option<(u32, u32, usize)>; 2]
    ensures { result ≡ refusals_told }
{
    [
        refused(b"CAM,SRE,2,4,E,10,11,20,40\nARM,SRE,1,1,R,30,40,40,80\n"),
        refused(b""),
    ]
}
