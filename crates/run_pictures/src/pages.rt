//! Writes the page of a picture: one text of HTML, which needs no other. Below the picture it says
//! what the rows say of the cell under the pointer; arrow keys choose the cell beside it.

ghost use Rattle.edge_io.specs.Writing.{Writes};
ghost use Rattle.run_pictures.specs.Pages.{formed, page_behind, page_choose, page_front};
ghost use Rattle.run_pictures.specs.Pages.{page_keys, page_middle, page_script};

use edge_io::{Sink, Writer};
use picture_parts::Figure;

/// What is written of a text.
#[derive(Clone, Copy)]
pub enum Form {
    /// Its picture, in SVG.
    Picture,
    /// A page with its picture, in HTML.
    Page,
}

/// Writes what stands before the picture.
fn put_page_front<K: Sink>(writer: &mut Writer<'_, K>)
    ensures { Writes K.told page_front writer.old writer.new }
{
    writer.text(
        b"<!DOCTYPE html>\n\
        <html lang='en'>\n\
        <head>\n\
        <meta charset='utf-8'>\n\
        <title>counterlab</title>\n\
        <style>\n\
        body { margin: 0 0 14em 0; font-family: monospace }\n\
        #said { position: fixed; bottom: 0; left: 0; right: 0; height: 12em; margin: 0;\n\
        padding: 6px; overflow: auto; background: white; border-top: 1px solid black;\n\
        white-space: pre-wrap }\n\
        g.chosen rect, g.chosen path { stroke: red; stroke-width: 2 }\n\
        </style>\n\
        </head>\n\
        <body>\n",
    );
}

/// Writes what stands between the picture and the rows.
fn put_page_middle<K: Sink>(writer: &mut Writer<'_, K>)
    ensures { Writes K.told page_middle writer.old writer.new }
{
    writer.text(
        b"<pre id='said'>Point at what is drawn. The arrow keys go on to the next cell.</pre>\n\
        <pre id='rows' hidden>\n",
    );
}

/// Writes what stands after the rows: how the page finds its cells.
fn put_page_script<K: Sink>(writer: &mut Writer<'_, K>)
    ensures { Writes K.told page_script writer.old writer.new }
{
    writer.text(
        b"</pre>\n\
        <script>\n\
        const newline = String.fromCharCode(10);\n\
        const said = document.getElementById('said');\n\
        const lines = new Map();\n\
        const cells = new Map();\n\
        const columns = new Set();\n\
        const nodes = new Set();\n\
        const add = (map, key, what) => map.set(key, (map.get(key) || []).concat([what]));\n\
        const say = (t, node, words) => {\n\
        add(lines, t + ' ' + node, words);\n\
        columns.add(t);\n\
        nodes.add(node);\n\
        };\n\
        for (const line of document.getElementById('rows').textContent.split(newline)) {\n\
        const words = line.split(' ');\n\
        if (words[0] === 'row')\n\
        words.slice(2).forEach((word, node) => say(+words[1], node, word));\n\
        if (words[0] === 'at') say(+words[1], +words[3], words.slice(4).join(' '));\n\
        }\n\
        const named = /^node ([0-9]+), configuration ([0-9]+)/;\n\
        for (const group of document.querySelectorAll('g')) {\n\
        const title = group.querySelector('title');\n\
        const told = title && title.textContent.match(named);\n\
        const tell = () => { said.textContent = title.textContent; };\n\
        if (title && !told) group.addEventListener('pointerover', tell);\n\
        if (!told) continue;\n\
        add(cells, told[2] + ' ' + told[1], group);\n\
        group.addEventListener('pointerover', () => choose(+told[2], +told[1], false));\n\
        }\n",
    );
}

/// Writes what the page does when a cell is chosen.
fn put_page_choose<K: Sink>(writer: &mut Writer<'_, K>)
    ensures { Writes K.told page_choose writer.old writer.new }
{
    writer.text(
        b"let now = null;\n\
        function choose(t, node, go) {\n\
        const key = t + ' ' + node;\n\
        if (!lines.has(key)) return;\n\
        const groups = cells.get(key) || [];\n\
        for (const group of document.querySelectorAll('g.chosen'))\n\
        group.classList.remove('chosen');\n\
        groups.forEach((group) => group.classList.add('chosen'));\n\
        now = [t, node];\n\
        const hears = newline + '    hears ';\n\
        const told = lines.get(key).map((words) =>\n\
        words.replace(' votes', hears + 'votes').replace(' saw', hears + 'saw'));\n\
        const head = 'configuration ' + t + ', node ' + node;\n\
        said.textContent = [head].concat(told).join(newline);\n\
        if (go && groups.length)\n\
        groups[0].scrollIntoView({ block: 'nearest', inline: 'nearest' });\n\
        }\n",
    );
}

/// Writes what it does for keys.
fn put_page_keys<K: Sink>(writer: &mut Writer<'_, K>)
    ensures { Writes K.told page_keys writer.old writer.new }
{
    writer.text(
        b"function beside(set, number, by) {\n\
        const list = [...set];\n\
        const place = list.indexOf(number) + by;\n\
        return list[Math.min(Math.max(place, 0), list.length - 1)];\n\
        }\n\
        const ways = {\n\
        ArrowLeft: [-1, 0], ArrowRight: [1, 0], ArrowUp: [0, -1], ArrowDown: [0, 1],\n\
        };\n\
        document.addEventListener('keydown', (event) => {\n\
        const way = ways[event.key];\n\
        if (!way || !columns.size) return;\n\
        event.preventDefault();\n\
        const [t, node] = now || [[...columns][0], [...nodes][0]];\n\
        choose(beside(columns, t, way[0]), beside(nodes, node, way[1]), true);\n\
        });\n\
        </script>\n\
        </body>\n\
        </html>\n",
    );
}

/// Writes what stands after a picture: the rows, and what the page does.
fn put_page_behind<K: Sink>(writer: &mut Writer<'_, K>, rows: &[u8])
    ensures { Writes K.told (page_behind rows.now) writer.old writer.new }
{
    put_page_middle(writer);
    writer.text(rows);
    put_page_script(writer);
    put_page_choose(writer);
    put_page_keys(writer);
}

/// Writes what is wanted of a figure: its picture, or a page of this and of the rows that it is of.
pub fn put_formed<K: Sink, F: Figure>(
    writer: &mut Writer<'_, K>,
    form: Form,
    rows: &[u8],
    figure: &F,
)
    ensures { Writes K.told (formed form rows.now (F.picture figure.now)) writer.old writer.new }
{
    match form {
        Form::Picture => figure.put_picture(writer),
        Form::Page => {
            put_page_front(writer);
            figure.put_picture(writer);
            put_page_behind(writer, rows);
        }
    }
}
