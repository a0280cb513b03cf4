ghost use Rattle.std.specs.Prelude.{◌≡◌};
ghost use Rattle.elements.specs.Contents.{contents};
ghost use Rattle.mesh.specs.Lists.{rooms};
ghost use Rattle.mesh.specs.Outcome.{Finishing, Filling, Exported};

use crate::lists::Lists;
use crate::mesh::Mesh;
use crate::numbering::Numbering;
use crate::trim::trim_arities;
use crate::unfold::Writer;
use elements::attributes::Attributes;
use elements::error::LoadError;
use elements::options::LoadOptions;
use elements::waiting::Waiting;

// Writes the waiting faces into the mesh, and answers how many it wrote and how many it skipped. A refused export leaves the mesh
// cleared and the tables empty.
// kept: a tuple inside Ok, a form that the project asks for
pub fn export<N: Numbering>(
    attributes: &Attributes,
    waiting: &Waiting,
    options: LoadOptions,
    material: Option<usize>,
    mesh: &mut Mesh,
    tables: &mut N,
) -> Result<(usize, usize), LoadError>
    ensures { Exported options (contents attributes.now waiting.now) material (rooms mesh.old.lists) (N.Numbering.stock tables.old).capacities mesh.new (N.Numbering.stock tables.new) (N.Numbering.sound tables.new) result }
{
    mesh.clear();
    tables.empty_all();
    // kept: a match and no `?`, since a refusal clears what was written
    match fill(attributes, waiting, options, &mut mesh.lists, tables) {
        Ok(counts) => {
            mesh.material_id = material;
            Ok(counts)
        }
        Err(error) => {
            mesh.clear();
            tables.empty_all();
            Err(error)
        }
    }
}

// The waiting faces into lists and tables that are empty.
fn fill<N: Numbering>(
    attributes: &Attributes,
    waiting: &Waiting,
    options: LoadOptions,
    lists: &mut Lists,
    tables: &mut N,
) -> Result<(usize, usize), LoadError>
    ensures { Filling options (contents attributes.now waiting.now) lists.old lists.new (N.Numbering.stock tables.old) (N.Numbering.stock tables.new) (N.Numbering.sound tables.old) (N.Numbering.sound tables.new) result }
{
    if !options.is_valid() {
        return Err(LoadError::InvalidLoadOptionConfig);
    }
    let mut writer = Writer {
        options,
        attributes,
        lists,
        tables,
    };
    let written = writer.write_faces(waiting)?;
    finish(options, lists, tables)?;
    Ok((written, waiting.faces.len() - written))
}

// Leaves needless arities out, and merges if that is asked for.
fn finish<N: Numbering>(
    options: LoadOptions,
    lists: &mut Lists,
    tables: &mut N,
) -> Result<(), LoadError>
    ensures { Finishing options lists.old lists.new (N.Numbering.stock tables.old) (N.Numbering.stock tables.new) (N.Numbering.sound tables.old) (N.Numbering.sound tables.new) result }
{
    trim_arities(lists);
    if options.merge_identical_points {
        tables.merge(lists)?;
    }
    Ok(())
}
