//! The fixed text of a page, which scripts/make_page.py makes of what stands in web/.

pub(crate) const BEFORE_TITLE: &[u8] = br##"<!DOCTYPE html>
<html lang="en">
<head>
<meta charset="utf-8">
<meta http-equiv="Content-Security-Policy" content="default-src 'none'; script-src 'sha256-cVvlPieHF7qElC2X1PhMH8Xm5l7UQf8fJe1UOcKlWrU=' 'sha256-oB5imTH3fULdqh777/IVNrwaiCPZo4N2WxW95ZvLOi8=' 'sha256-rIl9sVfe5WByvoRvQtARBtcicj7vS5B0y7pQMbHqGYk='; style-src 'sha256-wMYy2TeLjTuc/72rgnB0i8wHRr+HD9O0AO8yz3aBXYw='; worker-src blob:; child-src blob:; base-uri 'none'; form-action 'none'">
<meta name="viewport" content="width=device-width, initial-scale=1">
<meta name="referrer" content="no-referrer">
<title>"##;

pub(crate) const BEFORE_HEADING: &[u8] = br##"</title>
<style>:root {
  color-scheme: light dark;
  --paper: #fbfaf6; --ink: #1f1d1a; --soft: #5f5a52; --line: #d9d4c8; --card: #ffffff;
  --accent: #0a5a6b; --on-accent: #ffffff; --good: #1d6b35; --bad: #9a2a1b;
}
@media screen and (prefers-color-scheme: dark) {
  :root {
    --paper: #17181b; --ink: #e9e6df; --soft: #a8a399; --line: #383a40; --card: #202226;
    --accent: #7fc9d8; --on-accent: #0b1b1f; --good: #83d39a; --bad: #f2a090;
  }
}
* { box-sizing: border-box; }
html { -webkit-text-size-adjust: 100%; text-size-adjust: 100%; }
body {
  margin: 0; background: var(--paper); color: var(--ink);
  font: 1.0625rem/1.6 Charter, "Bitstream Charter", "Iowan Old Style", "Source Serif 4", Cambria, Georgia,
    "DejaVu Serif", serif;
}
main { max-width: 60rem; margin: 0 auto; padding: clamp(1.5rem, 5vw, 4rem) clamp(1.1rem, 4vw, 2.5rem) 4rem; }
header, .text, .drop, #answer, .warning, #checked > p { max-width: 40rem; }
h1 {
  margin: 0 0 .6rem; font-size: clamp(1.75rem, 5.2vw, 2.6rem); line-height: 1.15; font-weight: 600; text-wrap: balance;
}
h2 { margin: 2.6rem 0 .7rem; font-size: 1.35rem; line-height: 1.25; font-weight: 600; }
p { margin: 0 0 .9rem; text-wrap: pretty; }
.lead { font-size: 1.15rem; }
.soft, figcaption { color: var(--soft); }
.warning { padding: .8rem 1rem; border: 1px solid var(--bad); border-radius: .5rem; }
code, pre, .mono, #answer-line {
  font-family: ui-monospace, "SF Mono", SFMono-Regular, Menlo, Consolas, "DejaVu Sans Mono", monospace;
  font-size: .88em;
}
pre {
  margin: .6rem 0 .9rem; padding: .8rem 1rem; max-height: 24rem; overflow: auto;
  background: var(--card); border: 1px solid var(--line); border-radius: .5rem; line-height: 1.5;
}
figure { margin: 0; }
.large { max-width: 36rem; margin-bottom: 1.4rem; }
svg { display: block; width: 100%; height: auto; max-height: 80vh; background: #fff; border-radius: .5rem; }
#printed svg { max-height: none; margin-bottom: 1.2rem; }
table { width: 100%; border-collapse: collapse; margin-bottom: 1.2rem; }
th, td {
  padding: .45rem 1rem .45rem 0; border-bottom: 1px solid var(--line); text-align: left; vertical-align: baseline;
}
th { font-weight: inherit; }
thead th, .facts th { color: var(--soft); }
.facts { max-width: 40rem; }
.texts .mono { width: calc(65ch + 1rem); font-size: .75rem; line-height: 1.4; overflow-wrap: anywhere; }
.texts td { overflow-wrap: anywhere; }
#sheet {
  display: grid; grid-template-columns: repeat(auto-fill, minmax(min(9rem, 28%), 1fr)); gap: 1.1rem;
  margin-bottom: 1.2rem;
}
figcaption { margin-top: .25rem; text-align: center; font-size: .85rem; font-variant-numeric: tabular-nums; }
button, input { font: inherit; }
button {
  white-space: nowrap;
  padding: .5rem 1.1rem; border: 1px solid var(--accent); border-radius: .45rem;
  background: transparent; color: var(--accent); cursor: pointer;
}
button.main:enabled { background: var(--accent); color: var(--on-accent); font-weight: 600; }
button:disabled { background: transparent; border-color: var(--soft); color: var(--soft); cursor: default; }
:focus-visible { outline: 3px solid var(--accent); outline-offset: 2px; }
input[type="number"] {
  width: 8.5rem; padding: .45rem .6rem; border: 1px solid var(--soft); border-radius: .45rem;
  background: var(--card); color: var(--ink);
}
input[type="file"] { display: block; max-width: 100%; margin-top: .4rem; }
.row { display: flex; flex-wrap: wrap; gap: .7rem 1rem; align-items: center; margin: 0 0 .9rem; }
.drop {
  margin: 0 0 1rem; padding: 1.1rem 1.2rem; border: 2px dashed var(--soft); border-radius: .6rem;
  background: var(--card);
}
.over .drop { border-color: var(--accent); }
progress { width: min(100%, 24rem); height: .9rem; accent-color: var(--accent); }
#status { min-height: 1.6em; }
#answer {
  margin: 0 0 1rem; padding: 1rem 1.2rem; border: 1px solid var(--line); border-left: .45rem solid var(--bad);
  border-radius: .5rem; background: var(--card);
}
#answer p { margin: 0; }
#answer-line { font-size: 1.15rem; font-weight: 600; overflow-wrap: anywhere; color: var(--bad); }
#answer-words { padding-top: .4rem; }
#answer[data-kind="complete"] { border-left-color: var(--good); }
#answer[data-kind="complete"] > #answer-line { color: var(--good); }
summary { cursor: pointer; }
.scripted .unscripted, body:not(.scripted) .needs-script, [hidden] { display: none !important; }
@media (max-width: 40rem) {
  .texts, .texts tbody, .texts tr, .texts td, .texts th { display: block; border: 0; padding: 0; }
  .texts tr { padding: .6rem 0; border-bottom: 1px solid var(--line); }
  .texts thead { display: none; }
  .texts th { font-weight: 600; }
  .texts .mono { width: auto; }
  .texts .mono:not(:empty)::before { content: "SHA-256 "; }
}
@media print {
  .drop, .to-do, #status { display: none !important; }
  #sheet { grid-template-columns: repeat(5, 1fr); }
  figure { break-inside: avoid; }
}
</style>
</head>
<body>
<main>
<header>
<h1>"##;

pub(crate) const BEFORE_ARRANGEMENTS: &[u8] = br##"</h1>
<p class="lead">This page publishes all arrangements (solutions) of an edge-matching puzzle: a puzzle, a list, and a
certificate. Every arrangement of the puzzle is listed, or comes from a listed one by symmetries that the certificate
names. The program <code>edgematch</code> prints such a page only where its proved checker says so.</p>
</header>
<section aria-labelledby="numbers">
<h2 id="numbers">How many there are</h2>
<table class="facts" aria-labelledby="numbers">
<tbody>
<tr><th scope="row">Arrangements: all ways to fill the board</th><td>"##;

pub(crate) const BEFORE_PICTURES: &[u8] = br##"</td></tr>
<tr><th scope="row">Pictures: of these, the ways that look different</th><td>"##;

pub(crate) const BEFORE_ORBITS: &[u8] = br##"</td></tr>
<tr><th scope="row">Orbits: those that the symmetries take into each other count once</th><td>"##;

pub(crate) const BEFORE_SYMMETRIES: &[u8] = br##"</td></tr>
<tr><th scope="row">Symmetries that the certificate names</th><td>"##;

pub(crate) const BEFORE_LISTED: &[u8] = br##"</td></tr>
<tr><th scope="row">Arrangements that are listed</th><td>"##;

pub(crate) const BEFORE_PICTURE: &[u8] = br##"</td></tr>
</tbody>
</table>
</section>
<section aria-labelledby="drawn">
<h2 id="drawn">Pictures</h2>
<figure class="large">
"##;

pub(crate) const BEFORE_PICTURE_NAME: &[u8] = br##"<figcaption>"##;

pub(crate) const BEFORE_SHEET: &[u8] = br##"</figcaption></figure>
<div id="printed">
"##;

pub(crate) const BEFORE_PUZZLE_PLACE: &[u8] = br##"</div>
</section>
<section id="pictures" aria-labelledby="listed" hidden>
<h2 id="listed">The listed arrangements</h2>
<figure class="large"><div id="large"></div><figcaption id="large-name"></figcaption></figure>
<div id="several">
<p id="shown" class="soft"></p>
<div id="sheet"></div>
<div class="row needs-script to-do">
<button type="button" id="more" hidden>Show more</button>
<form id="choice" class="row">
<label for="number">Show number</label>
<input type="number" id="number" min="0" value="0" required>
<button type="submit">Show it large</button>
</form>
</div>
</div>
</section>
<section aria-labelledby="texts">
<h2 id="texts">The three texts</h2>
<p class="unscripted">Scripts don&#8217;t run here. The numbers, the pictures and the SHA-256 on this page are those that the
program printed. To check the texts in a browser, to save them and to see further pictures, scripts are needed. The
texts that are in this page stand at the end of its source.</p>
<div class="drop needs-script">
<label for="files">A text that isn&#8217;t in this page, since it is large, is a file beside it. Choose that file, or drop it
here; or choose other files in place of the texts that are here.</label>
<input type="file" id="files" multiple>
</div>
<table class="texts" aria-labelledby="texts">
<thead>
<tr><th scope="col">Text</th><th scope="col">Where it is</th><th scope="col">SHA-256</th><td></td></tr>
</thead>
<tbody>
<tr><th scope="row">Puzzle</th><td id="puzzle-from">"##;

pub(crate) const BEFORE_PUZZLE_LENGTH: &[u8] = br##", "##;

pub(crate) const BEFORE_PUZZLE_DIGEST: &[u8] = br##" bytes</td>
<td class="mono" id="puzzle-digest">"##;

pub(crate) const BEFORE_LIST_PLACE: &[u8] = br##"</td>
<td><button type="button" id="puzzle-save" aria-label="Save the puzzle" hidden>Save</button></td></tr>
<tr><th scope="row">List</th><td id="list-from">"##;

pub(crate) const BEFORE_LIST_LENGTH: &[u8] = br##", "##;

pub(crate) const BEFORE_LIST_DIGEST: &[u8] = br##" bytes</td>
<td class="mono" id="list-digest">"##;

pub(crate) const BEFORE_CERTIFICATE_PLACE: &[u8] = br##"</td>
<td><button type="button" id="list-save" aria-label="Save the list" hidden>Save</button></td></tr>
<tr><th scope="row">Certificate</th><td id="certificate-from">"##;

pub(crate) const BEFORE_CERTIFICATE_LENGTH: &[u8] = br##", "##;

pub(crate) const BEFORE_CERTIFICATE_DIGEST: &[u8] = br##" bytes</td>
<td class="mono" id="certificate-digest">"##;

pub(crate) const BEFORE_ANSWER: &[u8] = br##"</td>
<td><button type="button" id="certificate-save" aria-label="Save the certificate" hidden>Save</button></td></tr>
</tbody>
</table>
<p class="needs-script">A check in this browser is a second opinion: the checker of this page isn&#8217;t proved. That of the
program <code>edgematch</code> is.</p>
<div class="row needs-script to-do">
<button type="button" class="main" id="check" disabled>Check in this browser</button>
<button type="button" id="stop" hidden>Stop</button>
</div>
<progress id="bar" max="1" value="0" aria-label="How far the check is" hidden></progress>
<div role="status" aria-live="polite" aria-atomic="false">
<p id="status"></p>
<div id="answer" hidden>
<p id="answer-line"></p>
<p id="answer-words"></p>
</div>
</div>
</section>
<section id="checked" aria-labelledby="puzzle" hidden>
<h2 id="puzzle">The puzzle that was checked</h2>
<p>Compare it with the one that is spoken of: an answer says nothing of another puzzle.</p>
<table class="facts" aria-labelledby="puzzle"><tbody id="facts"></tbody></table>
<details>
<summary>Its text</summary>
<pre id="puzzle-text"></pre>
</details>
</section>
<section class="text" aria-labelledby="proved">
<h2 id="proved">Check it with the proved program</h2>
<p>Save the three texts as <code>puzzle</code>, <code>list</code> and <code>certificate</code>, and run</p>
<pre><code>sha256sum puzzle list certificate
edgematch check puzzle list certificate</code></pre>
<p>The first prints the SHA-256 above. The second prints</p>
<pre><code>complete "##;

pub(crate) const BEFORE_PUZZLE: &[u8] = br##"</code></pre>
</section>
<section class="text" aria-labelledby="meaning">
<h2 id="meaning">What complete means</h2>
<p>The listed arrangements are different, and each is right: no tile stands twice, sides that meet show equal colours
or mates, and the border and clues are obeyed. Each symmetry that the certificate names is one of the puzzle. Every
arrangement of the puzzle is a listed one, or is reached from one by these symmetries. That this is so where
<code>edgematch</code> calls a list complete is proved, whoever wrote the list and the certificate, and however.</p>
</section>
<section class="text" aria-labelledby="trust">
<h2 id="trust">What you have to trust</h2>
<p>The check in this browser is a second opinion, where nothing need be installed. It is done by some JavaScript, a
part of this page, that reads the three texts and follows the certificate step by step. It is not proved. It is written
apart from the program <code>edgematch</code>, whose checker is.</p>
<p>It is only as honest as whoever gave you this page, and your browser. To be sure, check the three texts with a
program or a page that you have from elsewhere. This page can ask for nothing from any network: a policy at its top
forbids it, and works from a file too.</p>
</section>
</main>
<script type="text/plain" id="puzzle-inside">"##;

pub(crate) const BEFORE_LIST: &[u8] = br##"</script>
<script type="text/plain" id="list-inside">"##;

pub(crate) const BEFORE_CERTIFICATE: &[u8] = br##"</script>
<script type="text/plain" id="certificate-inside">"##;

pub(crate) const LAST: &[u8] = br##"</script>
<script id="checker">/* A second checker of edgematch's three texts: a puzzle, a list of its arrangements, and a certificate that there is no
   other. It is a second opinion: plain JavaScript, for node, a browser and its workers, without any library.

     edgematchCheck(puzzle, list, certificate, tell)   takes the bytes of each (Uint8Array)

   gives { line, status }: the line that `edgematch check` prints, and its exit status, which is 0 for `complete N`, 1
   for `refused ..`, and 2 for a fault of a text. tell(done, total), where it is given, is called now and then.

   It was written from docs/FORMATS.md, which says what each text and each answer means, and from the definitions that
   docs/THEOREM.md quotes. It shares nothing with the crates, whose checker is proved. Nothing here is proved.

   How to read it. It goes from top to bottom, as a check does:

     Lines and words    how a text is read, and its faults
     Boards             which side of which cell meets which
     Puzzles            what is asked of a side, what a tile shows
     Lists              whether each listed arrangement is one, and none comes twice
     Certificates       the text alone: symmetries, prefixes, where each tree begins
     Symmetries         whether each line takes the puzzle to itself
     Prefixes           whether each lemma begins with tiles that may be placed
     Trees              whether each node says what holds
     The answer         all of these in their order, since only the first fault is told

   Numbers that belong together are kept as one:

     a side             4 cell + side
     a placement        4 tile + turn
     a pair             1024 cell + placement */

"use strict";

(function (global) {
  const LF = 10, SPACE = 32, DASH = 45, DOT = 46, ZERO = 48, COLON = 58, HASH = 35;
  const MOST_BYTES = 1073741824, MOST_COLOURS = 36, MOST_LENGTH = 100, MOST_PLACES = 1024;
  const MOST_ARRANGEMENTS = 1000000, MOST_LEMMAS = 1000000, MOST_SYMMETRIES = 1024;

  // What a text of each version may have. Only a puzzle has version 3, with the numbers of version 2.
  const SMALL = { cells: 100, asked: 400, children: 400, levels: 101 };
  const LARGE = { cells: 256, asked: 1024, children: 1024, levels: 257 };
  const LIMITS = { 1: SMALL, 2: LARGE, 3: LARGE };

  // What a side has to show is a colour, 0 to 35, or one of these.
  const NOTHING_SHOWS = 36; // two colours are wanted, so that no tile fits
  const ANY = 37;
  const WANTS = 38;

  // A fault of a text: the check ends there.
  class Fault extends Error {}

  // ---- Lines and words

  // Reads a text line by line, and a line word by word. `end` is where the LF of the line stands. `at` is where the
  // next word begins; it is past `end` where the line has no more words.
  class Text {
    constructor(name, bytes) {
      Object.assign(this, { name, bytes, line: 0, at: 0, end: -1 });
    }

    fault(kind) {
      return new Fault(`${this.name}: line ${this.line}: ${kind}`);
    }

    // Goes to the next line. That it has no LF is found before all else in it.
    nextLine() {
      this.at = this.end + 1;
      this.line++;
      this.end = this.bytes.indexOf(LF, this.at);
      if (this.end < 0) throw this.fault("ends");
    }

    // Takes the next word: where it ends.
    word() {
      if (this.at > this.end) throw this.fault("word");
      let stop = this.at;
      while (this.bytes[stop] !== SPACE && stop !== this.end) stop++;
      this.at = stop + 1;
      return stop;
    }

    // The bytes of the next word, which is taken.
    wordBytes() {
      const from = this.at;
      return this.bytes.subarray(from, this.word());
    }

    // Whether the next word is this one; it isn't taken.
    sees(word) {
      const { at, bytes, end } = this, stop = at + word.length;
      if (stop > end || (stop !== end && bytes[stop] !== SPACE)) return false;
      for (let i = 0; i < word.length; i++) if (bytes[at + i] !== word.charCodeAt(i)) return false;
      return true;
    }

    // Takes the next word, which has to be one of these.
    take(...words) {
      const seen = words.find((it) => this.sees(it));
      if (seen === undefined) throw this.fault("word");
      this.at += seen.length + 1;
      return seen;
    }

    // Takes the next word, a number from `least` to `most`.
    number(least, most) {
      if (this.at > this.end) throw this.fault("word");
      const { at, bytes, end } = this;
      let stop = at, value = 0;
      for (let digit = bytes[stop] - ZERO; digit >= 0 && digit <= 9; digit = bytes[++stop] - ZERO) {
        if (value < 10000000) value = value * 10 + digit; // past that it is over each limit, whatever follows
      }
      const isWord = stop > at && (stop === end || bytes[stop] === SPACE);
      if (!isWord || (bytes[at] === ZERO && stop > at + 1)) throw this.fault("number");
      if (value < least || value > most) throw this.fault("limit");
      this.at = stop + 1;
      return value;
    }

    // The number in a part of a word.
    numberIn(from, to, most) {
      if (from === to || (this.bytes[from] === ZERO && to > from + 1)) throw this.fault("number");
      let value = 0;
      for (let i = from; i < to; i++) {
        const digit = this.bytes[i] - ZERO;
        if (digit < 0 || digit > 9) throw this.fault("number");
        if (value < 10000000) value = value * 10 + digit;
      }
      if (value > most) throw this.fault("limit");
      return value;
    }

    // Where a character stands in a part of a word, which has to have it.
    find(character, from, to) {
      for (let i = from; i < to; i++) if (this.bytes[i] === character) return i;
      throw this.fault("word");
    }

    placementIn(from, dot, to, cells) {
      const tile = this.numberIn(from, dot, cells - 1);
      return tile * 4 + this.numberIn(dot + 1, to, 3);
    }

    // Takes `T.R`. What isn't written as it has to be is looked at once more, for its fault.
    placement(cells) {
      const { at, bytes } = this;
      let dot = at, tile = 0;
      for (let digit = bytes[dot] - ZERO; digit >= 0 && digit <= 9 && tile < cells; digit = bytes[++dot] - ZERO) {
        tile = tile * 10 + digit;
      }
      const turn = bytes[dot + 1] - ZERO, behind = bytes[dot + 2];
      const isTile = bytes[dot] === DOT && dot > at && (bytes[at] !== ZERO || dot === at + 1) && tile < cells;
      const isTurn = turn >= 0 && turn <= 3 && (behind === SPACE || behind === LF);
      if (isTile && isTurn) {
        this.at = dot + 3;
        return tile * 4 + turn;
      }
      const to = this.word();
      return this.placementIn(at, this.find(DOT, at, to), to, cells);
    }

    // Takes `C:T.R`.
    pair(cells) {
      const from = this.at, to = this.word();
      const colon = this.find(COLON, from, to), dot = this.find(DOT, colon + 1, to);
      return this.numberIn(from, colon, cells - 1) * 1024 + this.placementIn(colon + 1, dot, to, cells);
    }

    // Takes a word of one colour.
    colour() {
      const word = this.wordBytes();
      if (word.length !== 1 || colourOf(word[0]) < 0) throw this.fault("word");
      return colourOf(word[0]);
    }

    // Takes a word of three or four characters, one for each side; what each is, is -1 where it may not stand there.
    sides(meaning) {
      const word = Array.from(this.wordBytes(), meaning);
      if (word.length < 3 || word.length > 4 || word.includes(-1)) throw this.fault("word");
      return word;
    }

    // Takes entries up to a word, or up to the end of the line, where no word is given: at most `most` of them.
    entries(before, most, entry) {
      const entries = [];
      while (this.at <= this.end && !(before && this.sees(before))) {
        if (entries.length === most) throw this.fault("limit");
        entries.push(entry());
      }
      if (before) this.take(before);
      return entries;
    }

    lineDone() {
      if (this.at <= this.end) throw this.fault("word");
    }

    // The first line: what the text is, and its version.
    version(what, versions) {
      this.nextLine();
      this.take(what);
      if (this.at > this.end) throw this.fault("word");
      const version = versions.find((it) => this.sees(it));
      if (version === undefined) throw this.fault("version");
      this.take(version);
      this.lineDone();
      return version;
    }

    // A line of a word and a number.
    counted(what, least, most) {
      this.nextLine();
      this.take(what);
      const value = this.number(least, most);
      this.lineDone();
      return value;
    }

    // The line `end`, with nothing after it.
    close() {
      this.nextLine();
      this.take("end");
      this.lineDone();
      this.line++;
      if (this.end + 1 < this.bytes.length) throw this.fault("after");
    }
  }

  // The colour of a character, or -1.
  function colourOf(byte) {
    if (byte >= 48 && byte <= 57) return byte - 48;
    return byte >= 97 && byte <= 122 ? byte - 87 : -1;
  }

  // What a character asks of a side, or -1.
  const askedBy = (byte) => (byte === DASH ? ANY : colourOf(byte));

  // ---- Boards

  // A board is { cells, sides, meets }: how many cells, how many sides a cell has, and for each side (4 cell + side)
  // the side that it meets, or -1 where it is an outer one.

  // Rows of squares; a row says of each place whether there is a cell. Side 0 is north, then clockwise.
  function squares(rows) {
    let cells = 0;
    const numbers = rows.map((row) => row.map((filled) => (filled ? cells++ : -1)));
    const meets = new Int32Array(cells * 4).fill(-1);
    const join = (cell, side, other, otherSide) => {
      if (cell < 0 || other < 0) return;
      meets[cell * 4 + side] = other * 4 + otherSide;
      meets[other * 4 + otherSide] = cell * 4 + side;
    };
    for (let y = 0; y < rows.length; y++) {
      for (let x = 0; x < rows[y].length; x++) {
        if (x + 1 < rows[y].length) join(numbers[y][x], 1, numbers[y][x + 1], 3); // east against west
        if (y + 1 < rows.length) join(numbers[y][x], 2, numbers[y + 1][x], 0); // south against north
      }
    }
    return { cells, sides: 4, meets };
  }

  // Rows of triangles. A row is { length, firstUp, below }: how many it has, whether its first points up, and how many
  // places further right in the next row the cell stands that lies below one that points up. Sides that meet have the
  // same number: 0 to the right of a cell that points up, 2 to the right of one that points down, 1 in between rows.
  function triangles(rows) {
    let cells = 0;
    const starts = rows.map((row) => (cells += row.length) - row.length);
    const meets = new Int32Array(cells * 4).fill(-1);
    const join = (cell, other, side) => {
      meets[cell * 4 + side] = other * 4 + side;
      meets[other * 4 + side] = cell * 4 + side;
    };
    rows.forEach(({ length, firstUp, below }, y) => {
      for (let x = 0; x < length; x++) {
        const up = (x % 2 === 0) === firstUp, cell = starts[y] + x;
        if (x + 1 < length) join(cell, cell + 1, up ? 0 : 2);
        if (up && y + 1 < rows.length) join(cell, starts[y + 1] + x + below, 1);
      }
    });
    return { cells, sides: 3, meets };
  }

  // The rows of a hexagon with `size` cells at each side: they grow to the middle, and shrink again.
  function hexagonRows(size) {
    return Array.from({ length: 2 * size }, (_, y) => {
      const upper = y < size, length = 2 * size + 1 + 2 * Math.min(y, 2 * size - 1 - y);
      return { length, firstUp: upper, below: !upper ? -1 : y + 1 < size ? 1 : 0 };
    });
  }

  function boardOf({ kind, width, height, rows }) {
    const cells = { rect: width * height, triangle: width * width, hexagon: 6 * width * width,
      shape: rows.flat().filter(Boolean).length }[kind];
    if (cells === 0) throw new Fault("puzzle: board empty");
    if (kind === "shape" ? width * height > MOST_PLACES || cells > LARGE.cells : cells > SMALL.cells) {
      throw new Fault("puzzle: board too-large");
    }
    if (kind === "shape") return squares(rows);
    if (kind === "rect") return squares(Array.from({ length: height }, () => new Array(width).fill(true)));
    if (kind === "hexagon") return triangles(hexagonRows(width));
    return triangles(Array.from({ length: width }, (_, y) => ({ length: 2 * y + 1, firstUp: true, below: 1 })));
  }

  // ---- Puzzles

  function readPuzzle(bytes) {
    const text = new Text("puzzle", bytes);
    const version = text.version("match", ["1", "2", "3"]), limits = LIMITS[version];
    const said = { version, board: readBoard(text, version) };
    text.nextLine();
    text.take("turns");
    said.turns = text.take("yes", "no") === "yes";
    text.lineDone();
    said.border = readBorder(text, limits.asked);
    said.mates = version === "1" ? [] : readMates(text);
    said.clues = version === "3" ? readClues(text) : [];
    const count = text.counted("tiles", 1, limits.cells);
    said.words = [];
    for (let i = 0; i < count; i++) {
      text.nextLine();
      text.take("tile");
      said.words.push(text.sides(colourOf));
      text.lineDone();
    }
    text.close();
    return puzzleOf(said);
  }

  function readBoard(text, version) {
    text.nextLine();
    text.take("board");
    const kind = text.take("rect", "triangle", "hexagon", ...(version === "1" ? [] : ["shape"]));
    const [least, most] = kind === "shape" ? [1, MOST_PLACES] : [0, MOST_LENGTH];
    const width = text.number(least, most);
    const height = kind === "rect" || kind === "shape" ? text.number(least, most) : width;
    text.lineDone();
    const rows = [];
    for (let y = 0; kind === "shape" && y < height; y++) {
      text.nextLine();
      text.take("row");
      const row = text.wordBytes();
      if (row.length !== width || !row.every((it) => it === HASH || it === DOT)) throw text.fault("word");
      text.lineDone();
      rows.push(Array.from(row, (it) => it === HASH));
    }
    return { kind, width, height, rows };
  }

  // What the border asks: the word of its kind, and the colours (ANY for a dash) that follow.
  function readBorder(text, most) {
    text.nextLine();
    text.take("border");
    const kind = text.take("free", "one", "each"), asked = [];
    if (kind === "one") asked.push(text.colour());
    if (kind === "each") {
      do {
        if (asked.length === most) throw text.fault("limit");
        asked.push(text.sees("-") ? (text.take("-"), ANY) : text.colour());
      } while (text.at <= text.end);
    }
    text.lineDone();
    return { kind, asked };
  }

  function readMates(text) {
    text.nextLine();
    text.take("mates");
    return text.entries(null, MOST_COLOURS, () => text.colour());
  }

  function readClues(text) {
    const count = text.counted("clues", 0, LARGE.cells), clues = [];
    for (let i = 0; i < count; i++) {
      text.nextLine();
      text.take("clue");
      clues.push({ cell: text.number(0, LARGE.cells - 1), asked: text.sides(askedBy) });
      text.lineDone();
    }
    return clues;
  }

  // The puzzle that the text asks for, in tables; or the first reason for which there is no such puzzle.
  function puzzleOf({ board: drawn, turns, border, mates, clues, words, version }) {
    const board = boardOf(drawn), { cells, sides, meets } = board, tiles = words.length;
    const wrong = (what) => new Fault(`puzzle: ${what}`);
    if (sides === 3 && !turns) throw wrong("fixed-triangles");
    if (version === "3" ? tiles < cells : tiles !== cells) throw wrong("tile-count");
    const odd = words.findIndex((word) => word.length !== sides);
    if (odd >= 0) throw wrong(`tile-sides ${odd}`);
    const outer = outerSides(board);
    if (border.kind === "each" && border.asked.length !== outer.length) throw wrong("border-length");
    const mateless = mates.findIndex((mate, colour) => mates[mate] !== colour);
    if (mateless >= 0) throw wrong(`mates ${mateless}`);

    // What is asked of each side, by the border and by clues: a colour, or ANY.
    const asked = new Uint8Array(cells * 4).fill(ANY);
    if (border.kind !== "free") outer.forEach((side, i) => (asked[side] = border.asked[border.kind === "one" ? 0 : i]));
    clues.forEach((clue, i) => {
      const rises = clue.cell < cells && (i === 0 || clue.cell > clues[i - 1].cell);
      if (!rises || clue.asked.length !== sides) throw wrong(`clue ${i}`);
      clue.asked.forEach((colour, k) => {
        const side = clue.cell * 4 + k;
        if (colour === ANY) return;
        if (meets[side] < 0 && asked[side] !== ANY && asked[side] !== colour) throw wrong(`clue ${i}`);
        asked[side] = colour;
      });
    });

    const mate = Uint8Array.from({ length: MOST_COLOURS }, (_, colour) => mates[colour] ?? colour);
    const named = [...words.flat(), ...border.asked, ...clues.flatMap((clue) => clue.asked)].filter((it) => it !== ANY);
    const colours = named.reduce((most, colour) => Math.max(most, colour + 1), mates.length);

    // Of each tile how many turns it may have, and of each placement what it shows: on side K, turned R times, the
    // colour of the word at K + R, counted round. A word that looks the same after fewer turns has only these.
    const turnsOf = new Uint8Array(tiles), shows = new Uint8Array(tiles * 16);
    words.forEach((word, tile) => {
      const same = (turn) => word.every((colour, k) => colour === word[(k + turn) % sides]);
      turnsOf[tile] = turns ? [1, 2, 3, 4].find((turn) => same(turn)) : 1;
      for (let r = 0; r < 4; r++) for (let k = 0; k < sides; k++) shows[tile * 16 + r * 4 + k] = word[(k + r) % sides];
    });
    return { cells, sides, meets, tiles, asked, mate, colours, turnsOf, shows, drawn, turns, words };
  }

  // The sides that meet nothing, by cell, then by side.
  function outerSides({ cells, sides, meets }) {
    const outer = [];
    for (let c = 0; c < cells; c++) for (let k = 0; k < sides; k++) if (meets[c * 4 + k] < 0) outer.push(c * 4 + k);
    return outer;
  }

  // ---- Lists

  // The placements of all arrangements, cell by cell, one arrangement after another; and the first fault of the first
  // that is none, which is told only if no text has a fault.
  function readList(bytes, puzzle, tell) {
    const text = new Text("list", bytes), { cells } = puzzle;
    const most = LIMITS[text.version("list", ["1", "2"])].cells;
    const count = text.counted("arrangements", 0, MOST_ARRANGEMENTS);
    // An arrangement takes at least four bytes a cell, so that no more than these can be right.
    const placed = new Uint16Array(Math.min(count, Math.floor(bytes.length / (4 * cells))) * cells);
    const row = new Uint16Array(most), seen = new Int32Array(puzzle.tiles).fill(-1);
    let fault = null;
    for (let number = 0; number < count; number++) {
      text.nextLine();
      tell(text.at);
      let length = 0;
      do {
        if (length === most) throw text.fault("limit");
        row[length++] = text.placement(most);
      } while (text.at <= text.end);
      if (fault !== null) continue;
      const why = arrangementFault(puzzle, row, length, seen, number);
      if (why !== null) fault = `refused list ${number} ${why}`;
      else placed.set(row.subarray(0, cells), number * cells);
    }
    text.close();
    return { count, placed, fault };
  }

  // What is wrong with an arrangement: the kind counts first, then the least cell and side. `seen` says of each tile in
  // which arrangement it was seen last.
  function arrangementFault({ cells, sides, meets, tiles, asked, mate, turnsOf, shows }, row, length, seen, number) {
    if (length !== cells) return "length";
    for (let c = 0; c < cells; c++) if (row[c] >> 2 >= tiles) return `tile ${c}`;
    for (let c = 0; c < cells; c++) if ((row[c] & 3) >= turnsOf[row[c] >> 2]) return `turn ${c}`;
    for (let c = 0; c < cells; c++) {
      if (seen[row[c] >> 2] === number) return `twice ${c}`;
      seen[row[c] >> 2] = number;
    }
    for (let c = 0; c < cells; c++) {
      for (let k = 0; k < sides; k++) {
        const wanted = asked[c * 4 + k];
        if (wanted !== ANY && shows[row[c] * 4 + k] !== wanted) return `border ${c} ${k}`;
      }
    }
    for (let c = 0; c < cells; c++) {
      for (let k = 0; k < sides; k++) {
        const there = meets[c * 4 + k];
        if (there < 0) continue;
        if (shows[row[there >> 2] * 4 + (there & 3)] !== mate[shows[row[c] * 4 + k]]) return `edge ${c} ${k}`;
      }
    }
    return null;
  }

  // The least number of an arrangement that equals an earlier one, or -1. The numbers stand in a table at places that
  // depend on random factors, so that no list can be made whose arrangements all come to one place.
  function firstRepeated({ count, placed }, cells) {
    const bits = Math.max(4, Math.ceil(Math.log2(count + 1)) + 1), table = new Int32Array(1 << bits).fill(-1);
    const factors = Int32Array.from({ length: cells }, () => (Math.random() * 4294967296) | 1);
    const same = (one, other) => {
      for (let c = 0; c < cells; c++) if (placed[one * cells + c] !== placed[other * cells + c]) return false;
      return true;
    };
    for (let number = 0; number < count; number++) {
      let sum = 0;
      for (let c = 0; c < cells; c++) sum = (sum + Math.imul(factors[c], placed[number * cells + c])) | 0;
      let at = sum >>> (32 - bits);
      for (; table[at] >= 0; at = (at + 1) & (table.length - 1)) if (same(table[at], number)) return number;
      table[at] = number;
    }
    return -1;
  }

  // ---- Certificates: the text alone

  // Of each lemma, by its number: where its prefix stands in `pairs` and how long it is, and where its tree begins.
  function readCertificate(bytes, tell) {
    const text = new Text("certificate", bytes);
    const limits = LIMITS[text.version("certificate", ["1", "2"])];
    const lines = text.counted("symmetries", 0, MOST_SYMMETRIES), symmetries = [];
    for (let i = 0; i < lines; i++) symmetries.push(readSymmetry(text, limits.cells));
    const count = text.counted("lemmas", 0, MOST_LEMMAS);
    const firsts = new Uint32Array(count), lengths = new Uint16Array(count), trees = new Uint32Array(count);
    const given = new Uint8Array(count), left = new Uint16Array(limits.levels);
    let pairs = new Uint32Array(1024), filled = 0, stranger = Infinity, double = Infinity;
    for (let i = 0; i < count; i++) {
      text.nextLine();
      if ((i & 63) === 0) tell(text.at);
      text.take("lemma");
      const number = text.number(0, MOST_LEMMAS - 1), first = filled;
      text.take("prefix");
      while (text.at <= text.end && !text.sees("tree")) {
        if (filled - first === limits.cells) throw text.fault("limit");
        if (filled === pairs.length) pairs = doubled(pairs);
        pairs[filled++] = text.pair(limits.cells);
      }
      text.take("tree");
      if (number >= count) stranger = Math.min(stranger, number);
      else {
        if (given[number]) double = Math.min(double, number);
        given[number] = 1;
        firsts[number] = first;
        lengths[number] = filled - first;
        trees[number] = text.at;
      }
      readTree(text, limits, left, tell);
      text.lineDone();
    }
    text.close();
    if (stranger < Infinity) throw new Fault(`certificate: stranger ${stranger}`);
    if (double < Infinity) throw new Fault(`certificate: double ${double}`);
    return { bytes, symmetries, count, firsts, lengths, pairs, trees };
  }

  function doubled(numbers) {
    const larger = new Uint32Array(numbers.length * 2);
    larger.set(numbers);
    return larger;
  }

  function readSymmetry(text, most) {
    text.nextLine();
    text.take("symmetry");
    const shift = text.number(0, 3), mirrored = text.take("+", "-") === "-";
    text.take("cells");
    const cells = Uint16Array.from(text.entries("colours", most, () => text.number(0, most - 1)));
    const colours = Uint8Array.from(text.entries("tiles", MOST_COLOURS, () => text.colour()));
    const tiles = Uint16Array.from(text.entries(null, most, () => text.number(0, most - 1)));
    return { shift, mirrored, cells, colours, tiles };
  }

  const [C, T, D, E, F, S, I] = Array.from("ctdefsi", (letter) => letter.charCodeAt(0));

  // Reads the nodes of a tree. `left[level]` is how many children of the branch there are still to come.
  function readTree(text, limits, left, tell) {
    const { bytes, end } = text, lastCell = limits.cells - 1;
    let level = 0;
    for (;;) {
      const at = text.at;
      if (at > end) throw text.fault("word");
      if (level === limits.levels) throw text.fault("too-deep");
      if (bytes[at + 1] !== SPACE) throw text.fault("word"); // each letter has a number behind it
      const letter = bytes[at];
      text.at = at + 2;
      switch (letter) {
        case C:
        case T:
          text.number(0, lastCell);
          left[level++] = text.number(1, limits.children);
          continue;
        case D:
        case E:
          text.number(0, lastCell);
          break;
        case F:
          text.number(0, MOST_ARRANGEMENTS - 1);
          break;
        case S:
          text.number(0, MOST_LEMMAS - 1);
          break;
        case I:
          text.number(0, MOST_LEMMAS - 1);
          text.number(0, MOST_SYMMETRIES - 1);
          break;
        default:
          throw text.fault("word");
      }
      while (level > 0 && --left[level - 1] === 0) level--;
      if (level === 0) return;
      tell(text.at);
    }
  }

  // ---- Symmetries

  function isPermutation(images, size) {
    return images.length === size && images.every((it) => it < size) && new Set(images).size === size;
  }

  // What is wrong with a symmetry, or null. Then `turned` says where it takes each placement that may be.
  function symmetryFault(puzzle, symmetry) {
    const { cells, sides, meets, tiles, asked, mate, colours } = puzzle, colourTo = symmetry.colours;
    if (!isPermutation(symmetry.cells, cells)) return "cells";
    if (!isPermutation(colourTo, colours)) return "colours";
    if (!isPermutation(symmetry.tiles, tiles)) return "tiles";
    const { shift, mirrored } = symmetry;
    const sideTo = [0, 1, 2, 3].map((k) => (mirrored ? shift + 2 * sides - k : shift + k) % sides);
    const goesTo = (side) => symmetry.cells[side >> 2] * 4 + sideTo[side & 3];
    for (let c = 0; c < cells; c++) {
      for (let k = 0; k < sides; k++) {
        const there = meets[c * 4 + k], met = meets[goesTo(c * 4 + k)];
        if (met !== (there < 0 ? -1 : goesTo(there))) return `edge ${c} ${k}`;
      }
    }
    for (let c = 0; c < cells; c++) {
      for (let k = 0; k < sides; k++) {
        const colour = asked[c * 4 + k];
        if (asked[goesTo(c * 4 + k)] !== (colour === ANY ? ANY : colourTo[colour])) return `border ${c} ${k}`;
      }
    }
    symmetry.turned = new Uint16Array(tiles * 4);
    for (let t = 0; t < tiles; t++) if (!takesTile(puzzle, symmetry, sideTo, t)) return `tile ${t}`;
    for (let x = 0; x < colours; x++) if (colourTo[mate[x]] !== mate[colourTo[x]]) return `mates ${x.toString(36)}`;
    return null;
  }

  // Whether each turn of the tile looks like just one turn of its image, and each turn of that is looked like.
  function takesTile({ sides, turnsOf, shows }, { colours, tiles, turned }, sideTo, tile) {
    const image = tiles[tile], arisen = [false, false, false, false];
    for (let r = 0; r < turnsOf[tile]; r++) {
      let found = 0;
      for (let q = 0; q < turnsOf[image]; q++) {
        let alike = true;
        for (let k = 0; k < sides; k++) {
          if (shows[image * 16 + q * 4 + sideTo[k]] !== colours[shows[tile * 16 + r * 4 + k]]) alike = false;
        }
        if (!alike) continue;
        found++;
        arisen[q] = true;
        turned[tile * 4 + r] = image * 4 + q;
      }
      if (found !== 1) return false;
    }
    return arisen.slice(0, turnsOf[image]).every(Boolean);
  }

  // ---- Prefixes

  // What is wrong with a prefix: the place counts first, then the kind. `seen` says of each tile in which lemma's
  // prefix it was seen last.
  function prefixFault({ cells, tiles, turnsOf }, { pairs, firsts, lengths }, seen, number) {
    let before = -1;
    for (let place = 0; place < lengths[number]; place++) {
      const pair = pairs[firsts[number] + place], cell = pair >> 10, tile = (pair >> 2) & 255;
      if (cell >= cells || cell <= before) return `cell ${place}`;
      if (tile >= tiles || seen[tile] === number) return `tile ${place}`;
      if ((pair & 3) >= turnsOf[tile]) return `turn ${place}`;
      before = cell;
      seen[tile] = number;
    }
    return null;
  }

  // ---- Trees: what the nodes say

  // The number of the lowest bit that is 1.
  const lowest = (word) => 31 - Math.clz32(word & -word);

  // A board that is being filled, and what fits it. A placement fits a cell where cell and tile are free, and each of
  // its sides shows what is wanted there: what the border or a clue asks, and the mate of what a placed neighbour has.
  //
  // Sets of placements are words of 32 bits, with some tiles in each: a tile has as many bits as tiles have turns. What
  // fits a cell is then what `free` and the four rows of `showing`, one for each side and what is wanted there, have in
  // common. For nodes `t` and `e` there are sets of cells too: what `empty` and rows of `wanting` have in common fits a
  // tile. They are brought up to date where such a node comes, at the cells that were filled or emptied since.
  class Filling {
    constructor(puzzle, list, certificate) {
      const { cells, sides, meets, tiles, turns, turnsOf, shows, mate } = puzzle, bits = turns ? sides : 1;
      const inWord = Math.floor(32 / bits);
      Object.assign(this, { puzzle, list, certificate });
      this.at = new Int16Array(cells).fill(-1); // what is placed at a cell, or -1
      // Of each side what it asks of the side that it meets, by the mates of what is placed there: four bytes a cell,
      // which are written at once. Behind the cells stands one that asks nothing, for outer sides.
      this.asks = new Uint8Array(cells * 4 + 4).fill(ANY);
      this.asksAt = new Int32Array(this.asks.buffer);
      this.nothing = this.asksAt[cells];
      this.offers = new Int32Array(shows.map((colour) => mate[colour]).buffer); // what a placement asks
      this.across = meets.map((there) => (there < 0 ? cells * 4 : there));
      this.words = Math.ceil(tiles / inWord);
      // Of each tile the word and its bits there, of each bit the placement.
      this.wordOf = new Uint8Array(tiles);
      this.bitsOf = new Int32Array(tiles);
      this.placementOf = new Uint16Array(this.words * 32);
      this.free = new Int32Array(this.words);
      this.showing = new Int32Array(4 * WANTS * this.words);
      const rowOf = (k, colour) => (k * WANTS + colour) * this.words;
      for (let k = 0; k < 4; k++) this.showing.fill(-1, rowOf(k, ANY), rowOf(k, ANY + 1));
      for (let t = 0; t < tiles; t++) {
        const word = (this.wordOf[t] = Math.floor(t / inWord));
        for (let r = 0; r < turnsOf[t]; r++) {
          const place = (t % inWord) * bits + r, bit = 1 << place;
          this.placementOf[word * 32 + place] = t * 4 + r;
          this.bitsOf[t] |= bit;
          for (let k = 0; k < sides; k++) this.showing[rowOf(k, shows[t * 16 + r * 4 + k]) + word] |= bit;
        }
        this.free[word] |= this.bitsOf[t];
      }
      this.wants = new Uint8Array(cells * 4).fill(ANY); // what the sets of cells say of each side
      this.cellWords = Math.ceil(cells / 32);
      this.empty = new Int32Array(this.cellWords);
      this.wanting = new Int32Array(4 * WANTS * this.cellWords);
      // The pairs that are placed, in their order; those by which the sets of cells go; how many first ones are in both.
      Object.assign(this, { path: new Uint32Array(cells), length: 0 });
      Object.assign(this, { known: new Uint32Array(cells), knownLength: 0, shared: 0 });
      for (let c = 0; c < cells; c++) this.empty[c >> 5] |= 1 << (c & 31);
      for (let side = 0; side < cells * 4; side++) this.want(side, this.wanted(side));
      // Of the branch at each level, which is one at most for each cell: the pairs that fit, at most `most` of them,
      // how many children it has, and which of them is looked at.
      this.most = 4 * Math.max(cells, tiles);
      this.fits = new Uint32Array(cells * this.most);
      this.children = new Uint16Array(cells);
      this.child = new Uint16Array(cells);
    }

    // What a side has to show.
    wanted(side) {
      const clue = this.puzzle.asked[side], colour = this.asks[this.across[side]];
      if (clue === ANY || clue === colour) return colour;
      return colour === ANY ? clue : NOTHING_SHOWS;
    }

    // From now on the sets of cells say that the side has to show this.
    want(side, colour) {
      const { wanting, wants, cellWords } = this, first = (side & 3) * WANTS, bit = 1 << ((side >> 2) & 31);
      wanting[(first + wants[side]) * cellWords + (side >> 7)] &= ~bit;
      wanting[(first + colour) * cellWords + (side >> 7)] |= bit;
      wants[side] = colour;
    }

    // Brings the sets of cells up to date.
    followPath() {
      const { path, known } = this;
      for (let i = this.shared; i < this.knownLength; i++) this.follow(known[i] >> 10);
      for (let i = this.shared; i < this.length; i++) this.follow((known[i] = path[i]) >> 10);
      this.shared = this.knownLength = this.length;
    }

    // Brings the sets up to date for one cell and what it meets.
    follow(cell) {
      const { meets, sides } = this.puzzle, bit = 1 << (cell & 31);
      if (this.at[cell] < 0) this.empty[cell >> 5] |= bit;
      else this.empty[cell >> 5] &= ~bit;
      for (let k = 0; k < sides; k++) {
        const there = meets[cell * 4 + k];
        if (there >= 0 && this.wanted(there) !== this.wants[there]) this.want(there, this.wanted(there));
      }
    }

    // Places a pair behind those that are placed.
    place(pair) {
      const cell = pair >> 10, placement = pair & 1023, tile = placement >> 2;
      this.path[this.length++] = pair;
      this.at[cell] = placement;
      this.asksAt[cell] = this.offers[placement];
      this.free[this.wordOf[tile]] &= ~this.bitsOf[tile];
    }

    // Lifts the last pair.
    lift() {
      const pair = this.path[--this.length], cell = pair >> 10, tile = (pair >> 2) & 255;
      if (this.shared > this.length) this.shared = this.length;
      this.at[cell] = -1;
      this.asksAt[cell] = this.nothing;
      this.free[this.wordOf[tile]] |= this.bitsOf[tile];
    }

    // Counts the pairs that fit an empty cell, by tile, then turn, and lists them from `begin` on.
    fittingAt(cell, begin) {
      const { showing, words, free, fits, placementOf } = this, side = cell * 4;
      const row0 = this.wanted(side) * words, row1 = (WANTS + this.wanted(side + 1)) * words;
      const row2 = (2 * WANTS + this.wanted(side + 2)) * words, row3 = (3 * WANTS + this.wanted(side + 3)) * words;
      let end = begin;
      for (let word = 0; word < words; word++) {
        let set = free[word] & showing[row0 + word] & showing[row1 + word];
        set &= showing[row2 + word] & showing[row3 + word];
        for (; set !== 0; set &= set - 1) fits[end++] = cell * 1024 + placementOf[word * 32 + lowest(set)];
      }
      return end - begin;
    }

    // The cells of a word of 32 that a placement of a free tile fits.
    cellsFor(placement, word) {
      const { wanting, cellWords } = this, { sides, shows } = this.puzzle;
      let set = this.empty[word];
      for (let k = 0; k < sides; k++) {
        const colour = k * WANTS + shows[placement * 4 + k], any = k * WANTS + ANY;
        set &= wanting[any * cellWords + word] | wanting[colour * cellWords + word];
      }
      return set;
    }

    // Counts the pairs with a free tile that fit, by cell, then turn, and lists them from `begin` on.
    fittingOf(tile, begin) {
      const turns = this.puzzle.turnsOf[tile], sets = [0, 0, 0, 0];
      this.followPath();
      let end = begin;
      for (let word = 0; word < this.cellWords; word++) {
        let some = 0;
        for (let r = 0; r < turns; r++) some |= sets[r] = this.cellsFor(tile * 4 + r, word);
        for (; some !== 0; some &= some - 1) {
          const bit = some & -some, cell = word * 32 + lowest(some);
          for (let r = 0; r < turns; r++) {
            if ((sets[r] & bit) !== 0) this.fits[end++] = cell * 1024 + tile * 4 + r;
          }
        }
      }
      return end - begin;
    }

    // What is wrong with a node by itself, or null. `own` is the number of its lemma. What fits a branch is listed.
    nodeFault(letter, first, second, own, level) {
      const { cells, tiles } = this.puzzle;
      const begin = level * this.most;
      switch (letter) {
        case C:
        case D:
          if (first >= cells) return "cell-range";
          if (this.at[first] >= 0) return "cell-taken";
          return countFault(letter === C, this.fittingAt(first, begin), second);
        case T:
        case E:
          if (tiles > cells) return "tile-spare";
          if (first >= tiles) return "tile-range";
          if ((this.free[this.wordOf[first]] & this.bitsOf[first]) === 0) return "tile-taken";
          return countFault(letter === T, this.fittingOf(first, begin), second);
        case F:
          return this.foundFault(first, own, level);
        case S:
          return first >= own ? "not-earlier" : this.sameFault(first);
        default:
          if (first >= own) return "not-earlier";
          if (second >= this.certificate.symmetries.length) return "symmetry-range";
          return this.imageFault(first, this.certificate.symmetries[second]);
      }
    }

    foundFault(number, own, level) {
      const { cells } = this.puzzle, { count, placed } = this.list;
      if (this.certificate.lengths[own] + level !== cells) return "not-whole";
      if (number >= count) return "list-range";
      for (let c = 0; c < cells; c++) if (placed[number * cells + c] !== this.at[c]) return "not-listed";
      return null;
    }

    // Whether each pair of the lemma's prefix is placed.
    sameFault(lemma) {
      const { pairs, firsts, lengths } = this.certificate, stop = firsts[lemma] + lengths[lemma];
      for (let i = firsts[lemma]; i < stop; i++) if (this.at[pairs[i] >> 10] !== (pairs[i] & 1023)) return "not-within";
      return null;
    }

    // Whether the image of each of them is.
    imageFault(lemma, { cells, turned }) {
      const { pairs, firsts, lengths } = this.certificate, stop = firsts[lemma] + lengths[lemma];
      for (let i = firsts[lemma]; i < stop; i++) {
        if (this.at[cells[pairs[i] >> 10]] !== turned[pairs[i] & 1023]) return "not-within";
      }
      return null;
    }

    // The first fault of a lemma's tree, where its prefix is placed; null, and the board as before, if there is none.
    // The text was read before, so that its letters and numbers are known to be some.
    treeFault(own, tell) {
      const { fits, most, children, child } = this, { bytes, trees } = this.certificate;
      let at = trees[own], level = 0;
      for (;;) {
        const letter = bytes[at];
        let first = 0, second = 0;
        for (at += 2; bytes[at] > SPACE; at++) first = first * 10 + bytes[at] - ZERO;
        if (letter === C || letter === T || letter === I) {
          for (at++; bytes[at] > SPACE; at++) second = second * 10 + bytes[at] - ZERO;
        }
        at++;
        const why = this.nodeFault(letter, first, second, own, level);
        if (why !== null) return `${level === 0 ? "-" : child.subarray(0, level).join(".")} ${why}`;
        if (letter === C || letter === T) {
          children[level] = second;
          child[level++] = 0;
        } else {
          tell(at);
          // Goes up to the next child that is still to be looked at.
          for (;;) {
            if (level === 0) return null;
            this.lift();
            if (++child[level - 1] < children[level - 1]) break;
            level--;
          }
        }
        this.place(fits[(level - 1) * most + child[level - 1]]);
      }
    }

    // The first fault of all trees, by the numbers of their lemmas.
    firstFault(tell) {
      const { count, firsts, lengths, trees, pairs } = this.certificate;
      for (let number = 0; number < count; number++) {
        if ((number & 63) === 0) tell(trees[number]);
        const first = firsts[number], stop = first + lengths[number];
        for (let i = first; i < stop; i++) this.place(pairs[i]);
        const why = this.treeFault(number, tell);
        if (why !== null) return `refused tree ${number} at ${why}`;
        while (this.length > 0) this.lift();
      }
      return null;
    }
  }

  // What is wrong where `found` pairs fit: a branch has to have as many children, and at a dead end none may fit.
  function countFault(isBranch, found, children) {
    if (isBranch) return found === children ? null : `wrong-count ${found} ${children}`;
    return found === 0 ? null : `not-dead ${found}`;
  }

  // ---- The answer

  // The first fault of texts that were read, or that the list is complete.
  function answerOf(puzzle, list, certificate, tell) {
    if (list.fault !== null) return list.fault;
    const repeated = firstRepeated(list, puzzle.cells);
    if (repeated >= 0) return `refused repeated ${repeated}`;
    const { count, symmetries, lengths } = certificate;
    for (let number = 0; number < symmetries.length; number++) {
      const why = symmetryFault(puzzle, symmetries[number]);
      if (why !== null) return `refused symmetry ${number} ${why}`;
    }
    const seen = new Int32Array(puzzle.tiles).fill(-1);
    for (let number = 0; number < count; number++) {
      const why = prefixFault(puzzle, certificate, seen, number);
      if (why !== null) return `refused prefix ${number} ${why}`;
    }
    if (count === 0 || lengths[count - 1] !== 0) return "refused root";
    return new Filling(puzzle, list, certificate).firstFault(tell) ?? `complete ${list.count}`;
  }

  function edgematchCheck(puzzleBytes, listBytes, certificateBytes, tell = () => {}) {
    // The certificate is read twice. What is told only rises, though lemmas may stand anywhere.
    const whole = listBytes.length + 2 * certificateBytes.length;
    let told = -Infinity;
    const tellFrom = (begin) => (at) => {
      if (begin + at < told + whole / 200) return;
      told = begin + at;
      tell(told, whole);
    };
    try {
      const texts = { puzzle: puzzleBytes, list: listBytes, certificate: certificateBytes };
      for (const name in texts) if (texts[name].length > MOST_BYTES) throw new Fault(`too long ${name}`);
      const puzzle = readPuzzle(puzzleBytes);
      const list = readList(listBytes, puzzle, tellFrom(0));
      const certificate = readCertificate(certificateBytes, tellFrom(listBytes.length));
      const line = answerOf(puzzle, list, certificate, tellFrom(listBytes.length + certificateBytes.length));
      return { line, status: line.startsWith("complete ") ? 0 : 1, symmetries: certificate.symmetries.length };
    } catch (fault) {
      if (!(fault instanceof Fault)) throw fault;
      return { line: fault.message, status: 2 };
    }
  }

  // The three texts that stand in one, joined: each of the first two ends with its first line `end`.
  function edgematchCut(bytes) {
    const texts = [];
    let begin = 0;
    while (texts.length < 2) {
      let at = begin, stop = -1;
      while (stop < 0) {
        const end = bytes.indexOf(LF, at);
        if (end < 0) stop = bytes.length;
        else if (end === at + 3 && bytes[at] === 101 && bytes[at + 1] === 110 && bytes[at + 2] === 100) stop = end + 1;
        at = end + 1;
      }
      texts.push(bytes.subarray(begin, stop));
      begin = stop;
    }
    return [...texts, bytes.subarray(begin)];
  }

  const calls = { edgematchCheck, edgematchCut, edgematchPuzzle: readPuzzle };
  Object.assign(global, calls);
  if (typeof module === "object" && module !== null) module.exports = calls;
})(globalThis);
</script>
<script>/* Pictures (SVG) of arrangements, for the page: as `edgematch draw` makes them.

     edgematchPicture(puzzle, line, number, large, numbers)

   takes a puzzle that edgematchPuzzle of check.js read, and the line of an arrangement of a list that was checked. A
   large picture has the signs of colours, numbers of tiles where they are wanted, and below the board the tiles that are
   left over. */

"use strict";

(function (global) {
  const ANY = 37; // as in check.js: nothing is asked of a side
  // The fill of each colour, and the colours whose sign is white. Of two mates the lesser's fill counts.
  const FILLS = ("ddd 34a e60 912 4cf 188 fd2 e99 96e 964 8c6 222 535 99b 555 995 cea 66a "
    + "240 b37 fdf 797 79d 606 824 bb1 9f7 fbb c22 e6a 3b7 15d 737 bbd 977 660").split(" ");
  const WHITE_SIGNS = "139bcehijnosvwz";
  // Below a board: how far tiles are apart, and how wide a row may be where the board is narrower.
  const GAP = 28, TRAY = 836;

  // Of each side of a cell: where it begins, the way to its end, the way from there to the middle, the straight part
  // and the neck where it has a knob or a hollow, where its sign stands, and where at a hollow, and the way out.
  const SQUARE = [
    [[0, 0], [80, 0], [-40, 40], [33, 0], [14, 0], [40, 14], [40, 20], [0, -16]],
    [[80, 0], [0, 80], [-40, -40], [0, 33], [0, 14], [66, 40], [60, 40], [16, 0]],
    [[80, 80], [-80, 0], [40, -40], [-33, 0], [-14, 0], [40, 66], [40, 60], [0, 16]],
    [[0, 80], [0, -80], [40, 40], [0, -33], [0, -14], [14, 40], [20, 40], [-16, 0]],
  ];
  const UP = [
    [[0, 0], [52, 90], [-52, -30], [24, 41], [4, 8], [16, 50], [14, 52], [14, -8]],
    [[52, 90], [-104, 0], [52, -30], [-48, 0], [-8, 0], [0, 79], [0, 76], [0, 16]],
    [[-52, 90], [52, -90], [0, 60], [24, -41], [4, -8], [-16, 50], [-14, 52], [-14, -8]],
  ];
  const DOWN = [
    [[0, 0], [-52, -90], [52, 30], [-24, -41], [-4, -8], [-16, -50], [-14, -52], [-14, 8]],
    [[-52, -90], [104, 0], [-52, 30], [48, 0], [8, 0], [0, -79], [0, -76], [0, -16]],
    [[52, -90], [-52, 90], [0, -60], [-24, 41], [-4, 8], [16, -50], [14, -52], [14, 8]],
  ];
  // The corners of a band at each side, where the board ends sharply or bluntly: at its begin, at its end.
  const SHARP = [[[0, -32], [28, 16]], [[28, 16], [-28, 16]], [[-28, 16], [0, -32]]];
  const BLUNT_UP = [[[9, -16], [18, 0]], [[9, 16], [-9, 16]], [[-18, 0], [-9, -16]]];
  const BLUNT_DOWN = [[[-9, 16], [-18, 0]], [[-9, -16], [9, -16]], [[18, 0], [9, 16]]];

  const plus = (a, b) => [a[0] + b[0], a[1] + b[1]];
  const minus = (a, b) => [a[0] - b[0], a[1] - b[1]];
  const from = ([x, y]) => `M${x} ${y}`;
  const step = ([x, y]) => (y === 0 ? `h${x}` : x === 0 ? `v${y}` : `l${x}${spaced(y)}`);
  const spaced = (number) => (number < 0 ? `${number}` : ` ${number}`);
  const JOINED = 'stroke="#fff" stroke-linejoin="round"', LINES = 'stroke="#222"', BOLD = 'font-weight="bold"';
  const font = (size) => `font-family="monospace" font-size="${size}" text-anchor="middle"`;
  const group = (open, parts) => {
    const lines = parts.filter((it) => it !== "");
    return lines.length > 0 ? `<g ${open}>\n${lines.map((it) => `${it}\n`).join("")}</g>\n` : "";
  };

  // Where each cell stands: its point and the table of its sides; and how large the paper is.
  function layoutOf({ kind, width, height, rows }) {
    if (kind === "rect" || kind === "shape") return squares(width, height, kind === "shape" ? rows : null);
    const hexagon = kind === "hexagon", count = hexagon ? 2 * width : width, cells = [];
    for (let y = 0; y < count; y++) {
      const upper = y < width, far = upper ? y : count - 1 - y;
      const length = (hexagon ? 2 * width : 0) + 1 + 2 * far;
      for (let x = 0; x < length; x++) {
        const up = (x % 2 === 0) === upper;
        const point = [40 + 52 * (width - far + x), 40 + 90 * y + (up ? 0 : 90)];
        cells.push({ point, table: up ? UP : DOWN, up });
      }
    }
    return { cells, size: [(hexagon ? 208 : 104) * width + 80, 90 * count + 80], knob: 5 };
  }

  function squares(width, height, rows) {
    const cells = [];
    for (let y = 0; y < height; y++) {
      for (let x = 0; x < width; x++) {
        if (rows === null || rows[y][x]) cells.push({ point: [40 + 80 * x, 40 + 80 * y], table: SQUARE, x, y });
      }
    }
    const filled = new Set(cells.map(({ x, y }) => `${x} ${y}`));
    return { cells, size: [80 * width + 80, 80 * height + 80], knob: 8, isCell: (x, y) => filled.has(`${x} ${y}`) };
  }

  // The two corners of the band along an outer side.
  function cornersOf(puzzle, layout, cell, k) {
    const { table, x, y, up } = layout.cells[cell], out = table[k][7];
    if (table.length === 4) {
      const away = [out[0] / 16, out[1] / 16], along = [table[k][1][0] / 80, table[k][1][1] / 80];
      const corner = (way) => {
        if (layout.isCell(x + way[0] + away[0], y + way[1] + away[1])) return plus(out, [-16 * way[0], -16 * way[1]]);
        if (layout.isCell(x + way[0], y + way[1])) return out;
        return plus(out, [16 * way[0], 16 * way[1]]);
      };
      return [corner([-along[0], -along[1]]), corner(along)];
    }
    // Who stands round the corner, at the side before or after this one?
    const corner = (turn, end) => {
      const beside = puzzle.meets[cell * 4 + ((k + turn) % 3)];
      if (beside < 0) return SHARP[k][end];
      const across = puzzle.meets[(beside & ~3) + (((beside & 3) + turn) % 3)];
      return across < 0 ? (up ? BLUNT_UP : BLUNT_DOWN)[k][end] : out;
    };
    return [corner(2, 0), corner(1, 1)];
  }

  // Where tiles lie below a board: in as few rows as it takes, with as few in each.
  function trayOf(count, sides, [boardWidth, top]) {
    const [width, height, middle, table] = sides === 4 ? [80, 80, 0, SQUARE] : [104, 90, 52, UP];
    const most = Math.floor((Math.max(boardWidth - 80, TRAY) + GAP) / (width + GAP));
    const rows = Math.ceil(count / most), columns = Math.ceil(count / rows);
    const places = Array.from({ length: count }, (_, i) => {
      const x = 40 + middle + (i % columns) * (width + GAP), y = top + Math.floor(i / columns) * (height + GAP);
      return { point: [x, y], table };
    });
    return { places, size: [columns * (width + GAP) - GAP + 80, top + rows * (height + GAP) - GAP + 40] };
  }

  // What shows a colour: a part, a sign, the edge of a side.
  function inksOf({ mate }, knob) {
    const lesser = (colour) => Math.min(colour, mate[colour]);
    return {
      part: (colour, d) => `<path fill="#${FILLS[lesser(colour)]}" d="${d}z"/>`,
      sign: ([x, y], colour) => {
        const white = WHITE_SIGNS.includes(lesser(colour).toString(36)) ? ' fill="#fff"' : "";
        return `<text x="${x}" y="${y + 5}"${white}>${colour.toString(36)}</text>`;
      },
      // A side is straight where its colour is its own mate. Else the lesser has a knob, and the greater a hollow.
      edge: (colour, side) => {
        if (mate[colour] === colour) return step(side[1]);
        const [x, y] = side[4], turn = colour < mate[colour] ? 1 : 0;
        return `${step(side[3])}a${knob} ${knob} 0 1 ${turn}${spaced(x)}${spaced(y)}${step(side[3])}`;
      },
    };
  }

  // The bands along outer sides of which a colour is asked.
  function bandsOf(puzzle, layout, { part, sign, edge }, signs) {
    const { mate, meets, asked, sides } = puzzle, bands = [], letters = [];
    layout.cells.forEach(({ point, table }, cell) => {
      let band = "", letter = "";
      for (let k = 0; k < sides; k++) {
        const side = table[k], wanted = asked[cell * 4 + k], begin = from(plus(point, side[0]));
        if (wanted === ANY || meets[cell * 4 + k] >= 0) continue;
        const [first, last] = cornersOf(puzzle, layout, cell, k), by = mate[wanted] === wanted ? 2 : 4;
        band += part(wanted, `${begin}${edge(wanted, side)}${step(last)}${step(minus(minus(first, last), side[1]))}`);
        const at = [0, 1].map((i) => point[i] + side[0][i] + Math.trunc(side[1][i] / by) + side[7][i] / 2);
        letter += sign(at, wanted);
      }
      bands.push(band);
      letters.push(letter);
    });
    return group(JOINED, bands) + (signs ? group(`${font(13)} ${BOLD}`, letters) : "");
  }

  // Tiles, each [tile, turn], at places on the board or below it.
  function tilesAt(puzzle, places, placements, { part, sign, edge }, { thick, signs, numbers }) {
    const { mate, shows, sides, turns } = puzzle, parts = [], outlines = [], letters = [], arrows = [], discs = [], labels = [];
    const [radius, size, away] = sides === 4 ? [13, 13, [40, 40]] : [9, 12, [0, 60]];
    places.forEach(({ point, table }, place) => {
      const [tile, turn] = placements[place], middle = table === DOWN ? minus(point, away) : plus(point, away);
      let own = "", outline = from(plus(point, table[0][0])), letter = "";
      for (let k = 0; k < sides; k++) {
        const side = table[k], colour = shows[tile * 16 + turn * 4 + k], curve = edge(colour, side);
        own += part(colour, `${from(plus(point, side[0]))}${curve}${step(side[2])}`);
        outline += curve;
        letter += sign(plus(point, side[mate[colour] < colour ? 6 : 5]), colour);
      }
      parts.push(own);
      outlines.push(`<path d="${outline}z"/>`);
      letters.push(letter);
      discs.push(`<circle cx="${middle[0]}" cy="${middle[1]}" r="${radius}"/>`);
      labels.push(`<text x="${middle[0]}" y="${middle[1] + 5}">${tile}</text>`);
      if (!turns) arrows.push(`<path d="${from(plus(point, [12, 6]))}l6 8h-4v7h-4v-7h-4z"/>`);
    });
    return [
      group(JOINED, parts),
      group(`fill="none" ${LINES} stroke-width="${thick}" stroke-linejoin="round"`, outlines),
      signs ? group(`${font(14)} ${BOLD}`, letters) : "",
      numbers ? group(`fill="#fff" ${LINES}`, discs) + group(font(size), labels) : "",
      group(`fill="#fff" ${LINES} stroke-linejoin="round"`, arrows),
    ].join("");
  }

  function describe({ shows, sides, turns }, placements) {
    const words = placements.map(([tile, turn]) => {
      const colours = Array.from({ length: sides }, (_, k) => shows[tile * 16 + turn * 4 + k].toString(36));
      return `${tile}.${turn} ${colours.join("")}`;
    });
    const begin = turns ? "" : "Tiles may not be turned. ";
    return `${begin}By cell the tile, its turns and its colours: ${words.join(", ")}`;
  }

  // The tiles that an arrangement leaves over, unturned.
  function spareOf({ tiles }, placements) {
    const placed = new Set(placements.map(([tile]) => tile));
    return Array.from({ length: tiles }, (_, tile) => [tile, 0]).filter(([tile]) => !placed.has(tile));
  }

  function edgematchPicture(puzzle, line, number, large, numbers) {
    const { drawn, sides } = puzzle, layout = layoutOf(drawn), inks = inksOf(puzzle, layout.knob);
    const placements = line.split(" ").map((it) => it.split(".").map(Number));
    const spare = large ? spareOf(puzzle, placements) : [], thick = Math.ceil(Math.max(...layout.size) / 200);
    const labels = large ? { thick: 2, signs: true, numbers } : { thick, signs: false, numbers: false };
    const tray = spare.length > 0 ? trayOf(spare.length, sides, layout.size) : { places: [], size: [0, 0] };
    const [width, height] = [0, 1].map((i) => Math.max(layout.size[i], tray.size[i]));
    const size = drawn.kind === "rect" || drawn.kind === "shape" ? `${drawn.width} ${drawn.height}` : drawn.width;
    return [
      `<svg xmlns="http://www.w3.org/2000/svg" width="${width}" height="${height}" viewBox="0 0 ${width} ${height}" `,
      `role="img">\n<title>Arrangement ${number}: board ${drawn.kind} ${size}</title>\n`,
      `<desc>${describe(puzzle, placements)}</desc>\n<path fill="#fff" d="M0 0h${width}v${height}H0z"/>\n`,
      bandsOf(puzzle, layout, inks, labels.signs),
      tilesAt(puzzle, layout.cells, placements, inks, labels),
      tilesAt(puzzle, tray.places, spare, inks, { ...labels, numbers: true }),
      "</svg>\n",
    ].join("");
  }

  global.edgematchPicture = edgematchPicture;
  if (typeof module === "object" && module !== null) module.exports = { edgematchPicture };
})(globalThis);
</script>
<script>/* What a page does: it takes files, has the checker run in a worker, tells how far it is and what came of it, and shows
   the puzzle and the arrangements. It asks nothing of any network. A page that publishes a list has texts in it, which
   are taken at first, and tells where each text is and its SHA-256. */

"use strict";

(function () {
  const NAMES = ["puzzle", "list", "certificate"];
  const FIRST_WORDS = { match: "puzzle", list: "list", certificate: "certificate" };
  const PICTURES_AT_ONCE = 24;

  const element = (id) => document.getElementById(id);
  const grouped = (number) => String(number).replace(/\B(?=(\d{3})+$)/g, ",");
  const many = (number, word) => `${grouped(number)} ${word}${number === 1 ? "" : "s"}`;
  const latin = (bytes) => new TextDecoder("latin1").decode(bytes);
  const say = (line) => (element("status").textContent = line);

  // ---- The three texts

  const texts = {}; // by name: { source, from, isInside }, where the source is a file or bytes
  const told = {}; // by name, what the page itself says of the text: { from, digest }, or nothing

  const bytesIn = async (source) => (source instanceof Blob ? new Uint8Array(await source.arrayBuffer()) : source);
  const sizeOf = (source) => (source instanceof Blob ? source.size : source.length);
  const nameOf = (bytes) => FIRST_WORDS[latin(bytes.subarray(0, 16)).split(/[ \r\n]/)[0]];
  const missing = () => NAMES.filter((name) => !texts[name]);

  // Notes what the page says of each text, and takes those that are in it.
  function takeInside() {
    for (const name of NAMES) {
      told[name] = { from: element(`${name}-from`).textContent, digest: element(`${name}-digest`).textContent };
      const inside = element(`${name}-inside`);
      if (inside === null) continue;
      element(`${name}-save`).addEventListener("click", () => save(name));
      if (inside.textContent !== "") {
        texts[name] = { source: new TextEncoder().encode(inside.textContent), from: "this page", isInside: true };
      }
    }
  }

  function save(name) {
    const address = URL.createObjectURL(new Blob([texts[name].source], { type: "application/octet-stream" }));
    const link = document.createElement("a");
    link.href = address;
    link.download = name;
    link.click();
    setTimeout(() => URL.revokeObjectURL(address), 60000);
  }

  // What a file has, by the first word of its text: the names of one text, or of three that stand there joined.
  async function take(file) {
    const name = nameOf(await bytesIn(file.slice(0, 16)));
    if (!name) return [];
    const parts = name === "puzzle" ? edgematchCut(await bytesIn(file)) : [];
    if (parts.length === 3 && parts.every((it, i) => nameOf(it) === NAMES[i])) {
      parts.forEach((it, i) => (texts[NAMES[i]] = { source: it.slice(), from: file.name }));
      return NAMES;
    }
    texts[name] = { source: file, from: file.name };
    return [name];
  }

  // Takes all files of one choice. Of two that have the same text the last counts, and it is said.
  async function takeAll(files) {
    if (worker !== null || files.length === 0) return;
    const said = [], taken = new Set();
    for (const file of files) {
      try {
        const names = await take(file);
        if (names.length === 0) said.push(`${file.name} begins with none of the words match, list and certificate.`);
        for (const name of names) {
          if (taken.has(name)) said.push(`There were two files with a ${name}: ${file.name} counts.`);
          taken.add(name);
        }
      } catch (why) {
        said.push(`${file.name} can\u2019t be read (${why.message}).`);
      }
    }
    forget();
    say([...said, ready()].join(" "));
  }

  function ready() {
    const absent = missing();
    if (absent.length === 0) return "All three texts are here.";
    const last = `the ${absent.pop()}`;
    return `Still wanted: ${absent.map((name) => `the ${name}`).join(", ")}${absent.length > 0 ? " and " : ""}${last}.`;
  }

  // An answer is of the texts that were checked: it goes where others come.
  function forget() {
    for (const id of ["answer", "checked", "pictures"]) element(id).hidden = true;
    for (const name of NAMES) element(`${name}-digest`).textContent = told[name].digest;
    for (const id of ["sheet", "large", "facts"]) element(id).replaceChildren();
    if (printed !== null) printed.hidden = false;
    showTexts();
    showInside();
  }

  function showTexts() {
    for (const name of NAMES) {
      const text = texts[name], here = text && `${text.from}, ${many(sizeOf(text.source), "byte")}`;
      element(`${name}-from`).textContent = here ?? (told[name].from || "not here yet");
      if (printed !== null) element(`${name}-save`).hidden = !text;
    }
    element("check").disabled = missing().length > 0 || worker !== null;
    element("files").disabled = worker !== null;
  }

  // ---- The check, in a worker

  let worker = null, quarter = 0;

  // Runs in the worker, behind the text of the checker: it sends how far the check is, and in the end the answer and
  // the SHA-256 of each text.
  function work() {
    const [ROUNDS, START] = (() => {
      const primes = [];
      for (let n = 2; primes.length < 64; n++) if (primes.every((it) => n % it !== 0)) primes.push(n);
      const bits = (root) => Math.floor((root - Math.floor(root)) * 4294967296);
      return [primes.map((it) => bits(Math.cbrt(it))), primes.slice(0, 8).map((it) => bits(Math.sqrt(it)))];
    })();

    // The SHA-256 of bytes, as FIPS 180-4 has it.
    function sha256(bytes) {
      const whole = bytes.length - (bytes.length % 64), rest = new Uint8Array(bytes.length % 64 < 56 ? 64 : 128);
      rest.set(bytes.subarray(whole));
      rest[bytes.length % 64] = 128;
      const lengths = new DataView(rest.buffer, rest.length - 8);
      lengths.setUint32(0, Math.floor(bytes.length / 536870912));
      lengths.setUint32(4, (bytes.length * 8) % 4294967296);
      const hash = Int32Array.from(START), words = new Int32Array(64), rounds = Int32Array.from(ROUNDS);
      const mix = (from, at) => {
        for (let i = 0; i < 16; i++, at += 4) {
          words[i] = (from[at] << 24) | (from[at + 1] << 16) | (from[at + 2] << 8) | from[at + 3];
        }
        for (let i = 16; i < 64; i++) {
          const x = words[i - 15], y = words[i - 2];
          const s = ((x >>> 7) | (x << 25)) ^ ((x >>> 18) | (x << 14)) ^ (x >>> 3);
          const t = ((y >>> 17) | (y << 15)) ^ ((y >>> 19) | (y << 13)) ^ (y >>> 10);
          words[i] = (words[i - 16] + s + words[i - 7] + t) | 0;
        }
        let [a, b, c, d, e, f, g, h] = hash;
        for (let i = 0; i < 64; i++) {
          const s = ((e >>> 6) | (e << 26)) ^ ((e >>> 11) | (e << 21)) ^ ((e >>> 25) | (e << 7));
          const one = (h + s + ((e & f) ^ (~e & g)) + rounds[i] + words[i]) | 0;
          const t = ((a >>> 2) | (a << 30)) ^ ((a >>> 13) | (a << 19)) ^ ((a >>> 22) | (a << 10));
          const other = (t + ((a & b) ^ (a & c) ^ (b & c))) | 0;
          h = g;
          g = f;
          f = e;
          e = (d + one) | 0;
          d = c;
          c = b;
          b = a;
          a = (one + other) | 0;
        }
        [a, b, c, d, e, f, g, h].forEach((it, i) => (hash[i] += it));
      };
      for (let at = 0; at < whole; at += 64) mix(bytes, at);
      for (let at = 0; at < rest.length; at += 64) mix(rest, at);
      return Array.from(hash, (it) => (it >>> 0).toString(16).padStart(8, "0")).join("");
    }

    self.onmessage = async ({ data }) => {
      try {
        const begun = Date.now(), all = [];
        for (const it of data) all.push(it instanceof Blob ? new Uint8Array(await it.arrayBuffer()) : it);
        const answer = edgematchCheck(...all, (done, whole) => self.postMessage({ done, whole }));
        const seconds = (Date.now() - begun) / 1000;
        self.postMessage({ answer, seconds, digests: all.map(sha256) });
      } catch (why) {
        self.postMessage({ failed: String(why) });
      }
    };
  }

  function check() {
    if (worker !== null || missing().length > 0) return;
    const source = `${element("checker").textContent}\n(${work})();`;
    const address = URL.createObjectURL(new Blob([source], { type: "text/javascript" }));
    try {
      worker = new Worker(address);
    } catch (why) {
      fail(why.message);
      return;
    }
    worker.onmessage = ({ data }) => hear(data);
    worker.onerror = (event) => fail(event.message || "a worker can\u2019t be started");
    worker.postMessage(NAMES.map((name) => texts[name].source));
    quarter = 0;
    element("answer").hidden = true;
    showTexts();
    element("bar").value = 0;
    element("bar").hidden = false;
    element("stop").hidden = false;
    element("stop").focus();
    say("Checking. 0 %");
  }

  function rest() {
    if (worker !== null) worker.terminate();
    worker = null;
    element("bar").hidden = true;
    element("stop").hidden = true;
    showTexts();
    element("check").focus();
  }

  function fail(why) {
    rest();
    say(`This browser could not do the check (${why}). The texts may be too large for it.`);
  }

  function hear({ done, whole, answer, seconds, digests, failed }) {
    if (failed !== undefined) fail(failed);
    else if (answer !== undefined) tell(answer, seconds, digests);
    else {
      element("bar").value = whole > 0 ? done / whole : 1;
      // Who hears the page is told four times, and not of each step.
      const now = Math.floor((4 * done) / Math.max(whole, 1));
      if (now > quarter && now < 4) say(`Checking. ${25 * now} %`);
      quarter = Math.max(quarter, now);
    }
  }

  function tell(answer, seconds, digests) {
    rest();
    element("answer").dataset.kind = ["complete", "refused", "fault"][answer.status];
    element("answer-line").textContent = answer.line;
    element("answer-words").textContent = [inWords(answer), ...aboutDigests(digests)].join(" ");
    element("answer").hidden = false;
    NAMES.forEach((name, i) => (element(`${name}-digest`).textContent = digests[i]));
    say(seconds < 0.1 ? "Checked in less than 0.1 seconds." : `Checked in ${seconds.toFixed(1)} seconds.`);
    if (answer.status < 2) showChecked(answer.status === 0);
  }

  // What a refusal means, as docs/FORMATS.md has it. The line itself says what exactly, and where.
  function refusalInWords(line) {
    const [, kind, number] = line.split(" ");
    if (kind === "list") return `Arrangement ${number} of the list is no arrangement of the puzzle.`;
    if (kind === "repeated") return `Arrangement ${number} of the list stands there before.`;
    const fault = {
      symmetry: `its symmetry ${number} is none of the puzzle`,
      prefix: `its lemma ${number} begins with tiles that can\u2019t stand there`,
      root: "it has no last lemma about the empty board",
      tree: `its lemma ${number} says what isn\u2019t so`,
    }[kind];
    return `The certificate doesn\u2019t show that the list is complete: ${fault}. The list may be complete all the same.`;
  }

  function inWords({ status, line, symmetries }) {
    if (status === 2) return "The texts aren\u2019t a puzzle, a list and a certificate. The first fault is named above.";
    if (status === 1) return `${refusalInWords(line)} \u201cedgematch explain\u201d says more of it.`;
    const number = Number(line.split(" ")[1]), one = number === 1;
    if (number === 0) return "Nothing is listed, and that is right: the puzzle has no arrangement.";
    const listed = one ? "The listed arrangement is right" : `All ${grouped(number)} listed arrangements are right`;
    if (symmetries === 0) return `${listed}, and there is no other.`;
    return `${listed}, and there are no others but images of ${one ? "it" : "these"}, under the `
      + `${symmetries === 1 ? "symmetry" : `${grouped(symmetries)} symmetries`} that the certificate names.`;
  }

  // Whether what was checked is what the page tells of, where it tells of texts.
  function aboutDigests(digests) {
    if (NAMES.every((name) => told[name].digest === "")) return [];
    const others = NAMES.filter((name, i) => told[name].digest !== digests[i]);
    if (others.length === 0) return ["The three texts have the SHA-256 that this page tells."];
    return [`But what was checked is not what this page publishes: the SHA-256 of the ${others.join(" and of the ")} `
      + "is another."];
  }

  // ---- What is shown

  const printed = element("printed"); // pictures that the page has already, if it has some
  let puzzle = null, list = null, starts = [];

  // The pictures of the puzzle and the list that are in the page, in place of its own. Where they can't be drawn, these
  // stay: a check says what is wrong.
  function showInside() {
    if (!["puzzle", "list"].every((name) => texts[name]?.isInside)) return;
    try {
      puzzle = edgematchPuzzle(texts.puzzle.source);
      list = texts.list.source;
      showPictures();
    } catch (why) {
      element("pictures").hidden = true;
      printed.hidden = false;
    }
  }

  // The puzzle of a check, and where the list was called complete its pictures.
  async function showChecked(isComplete) {
    const sources = NAMES.map((name) => texts[name].source);
    const [puzzleBytes, listBytes] = [await bytesIn(sources[0]), await bytesIn(sources[1])];
    if (sources.some((it, i) => texts[NAMES[i]].source !== it)) return; // others were chosen meanwhile
    puzzle = edgematchPuzzle(puzzleBytes);
    list = listBytes;
    element("facts").replaceChildren(...factsOf(puzzle).map(factRow));
    element("puzzle-text").textContent = latin(puzzleBytes);
    element("checked").hidden = false;
    if (isComplete && element("pictures").hidden) showPictures();
  }

  function showPictures() {
    starts = linesOf(list);
    if (starts.length < (printed === null ? 1 : 2)) return; // a page that publishes a list has the first picture
    element("number").max = starts.length - 1;
    element("number").value = 0;
    element("pictures").hidden = false;
    element("several").hidden = starts.length === 1;
    if (printed === null) showLarge(0);
    else printed.hidden = true;
    more();
  }

  function factsOf({ drawn, cells, tiles, turns, colours, asked, meets, mate, sides }) {
    const { kind, width, height } = drawn, own = Array.from(mate).every((it, colour) => it === colour);
    const board = {
      rect: `a rectangle, ${many(width, "column")} and ${many(height, "row")} of squares`,
      triangle: `a triangle of triangles, ${width} at each side`,
      hexagon: `a hexagon of triangles, ${width} at each side`,
      shape: `squares of a rectangle of ${many(width, "column")} and ${many(height, "row")}`,
    };
    let outer = 0, askedOuter = 0, askedInner = 0;
    for (let c = 0; c < cells; c++) {
      for (let k = 0; k < sides; k++) {
        const isOuter = meets[c * 4 + k] < 0, isAsked = asked[c * 4 + k] < 36;
        outer += isOuter;
        askedOuter += isOuter && isAsked;
        askedInner += !isOuter && isAsked;
      }
    }
    return [
      ["Board", board[kind]],
      ["Cells", grouped(cells)],
      ["Tiles", grouped(tiles) + (tiles > cells ? `, of which ${grouped(tiles - cells)} are left over` : "")],
      ["Tiles may be turned", turns ? "yes" : "no"],
      ["Colours", grouped(colours)],
      ["Where sides meet", own ? "equal colours" : "a colour and its mate"],
      ["Outer sides", `${grouped(outer)}; ${asking(askedOuter, outer)} to show a certain colour`],
      ...(askedInner > 0 ? [["Other sides with a clue", grouped(askedInner)]] : []),
    ];
  }

  const asking = (some, all) => (some === 0 ? "none has" : some === all ? "each has" : `${grouped(some)} of them have`);

  function factRow([name, value]) {
    const row = document.createElement("tr"), head = document.createElement("th"), cell = document.createElement("td");
    head.scope = "row";
    head.textContent = name;
    cell.textContent = value;
    row.append(head, cell);
    return row;
  }

  // Where each arrangement's line begins in a list.
  function linesOf(bytes) {
    const found = [];
    let at = bytes.indexOf(10, bytes.indexOf(10) + 1) + 1;
    for (let end; (end = bytes.indexOf(10, at)) >= 0 && bytes[at] !== 101; at = end + 1) found.push(at);
    return found;
  }

  function picture(number, large) {
    const line = latin(list.subarray(starts[number], list.indexOf(10, starts[number])));
    const text = edgematchPicture(puzzle, line, number, large, puzzle.tiles > puzzle.cells);
    return document.importNode(new DOMParser().parseFromString(text, "image/svg+xml").documentElement, true);
  }

  function showLarge(number) {
    element("large").replaceChildren(picture(number, true));
    const spare = puzzle.tiles - puzzle.cells, be = spare === 1 ? "is" : "are";
    const below = spare === 1 ? "is the tile" : `are the ${grouped(spare)} tiles`;
    const name = `Arrangement ${grouped(number)}`;
    element("large-name").textContent = spare > 0 ? `${name}. Below it ${below} that ${be} left over.` : name;
  }

  function figureOf(number) {
    const figure = document.createElement("figure"), caption = document.createElement("figcaption");
    caption.textContent = grouped(number);
    figure.append(picture(number, false), caption);
    return figure;
  }

  // Shows some more pictures behind those that stand there.
  function more() {
    const sheet = element("sheet"), begin = sheet.children.length;
    const end = Math.min(begin + PICTURES_AT_ONCE, starts.length);
    for (let number = begin; number < end; number++) sheet.append(figureOf(number));
    element("shown").textContent = end === starts.length
      ? `All ${grouped(end)} are shown.`
      : `The first ${grouped(end)} of ${grouped(starts.length)} are shown.`;
    element("more").hidden = end === starts.length;
    element("more").textContent = `Show ${Math.min(PICTURES_AT_ONCE, starts.length - end)} more`;
  }

  function showChosen() {
    const { value } = element("number"), number = Number(value);
    if (!/^\d+$/.test(value) || number >= starts.length) {
      say(`There is no arrangement ${value}: they have the numbers 0 to ${grouped(starts.length - 1)}.`);
      return;
    }
    showLarge(number);
    element("large").scrollIntoView({ block: "nearest" });
    say(`Arrangement ${grouped(number)} is shown.`);
  }

  // ---- What the reader does

  element("check").addEventListener("click", check);
  element("stop").addEventListener("click", () => {
    rest();
    say("Stopped: nothing was found out.");
  });
  element("files").addEventListener("change", (event) => takeAll([...event.target.files]));
  element("more").addEventListener("click", () => {
    more();
    say(element("shown").textContent);
  });
  element("choice").addEventListener("submit", (event) => {
    event.preventDefault();
    showChosen();
  });
  const over = (isOver) => document.body.classList.toggle("over", isOver);
  addEventListener("dragover", (event) => {
    event.preventDefault();
    over(true);
  });
  addEventListener("dragleave", (event) => {
    if (event.relatedTarget === null) over(false);
  });
  addEventListener("drop", (event) => {
    event.preventDefault();
    over(false);
    takeAll([...event.dataTransfer.files]);
  });
  document.body.classList.add("scripted");
  takeInside();
  showTexts();
  showInside();
  say(ready());
})();
</script>
</body>
</html>
"##;
